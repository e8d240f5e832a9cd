ghost use Rattle.std.specs.Prelude.{◌≡◌, ◌++◌, codes, IfOk};
ghost use Rattle.wc_io.specs.Causes.{HasCause};
ghost use Rattle.wc_io.specs.Writing.{Writes};
ghost use Rattle.wc_f4.specs.Reading.{IsReadAs};
ghost use Rattle.wc_f4.specs.Stated.{IsStated};
ghost use Rattle.wc_f4.specs.FactText.{addresses_text, bounded_text, branching_text, checksum_text, fact_text, last_side_text, limit_text, loop_text, more_addresses_text, more_terms_text, sum_text, term_text, times_text, visited_text, visits_text, within_text};

use std::alloc::{AllocError, Global};
use wc_base::Addr;
use wc_io::{Failed, MemorySink, Piece, Sink, write_pieces, write_whole};
use wc_model::{Fact, Term};

/// Appends addresses, each behind a comma.
fn write_more_addresses<K: Sink>(sink: &mut K, addresses: &[Addr]) -> Result<(), Failed>
    ensures text { Writes (K.held sink.old) (K.held sink.new) result (more_addresses_text addresses.now) }
    ensures cause { HasCause (K.faults sink.old) (K.faults sink.new) result }
    ensures place { K.place sink.new ≡ K.place sink.old }
{
    for address in addresses {
        write_pieces(sink, &[Piece::Bytes(b", "), Piece::Address(*address)])?;
    }
    Ok(())
}

/// Appends addresses with commas between them.
fn write_addresses<K: Sink>(sink: &mut K, addresses: &[Addr]) -> Result<(), Failed>
    ensures text { Writes (K.held sink.old) (K.held sink.new) result (addresses_text addresses.now) }
    ensures cause { HasCause (K.faults sink.old) (K.faults sink.new) result }
    ensures place { K.place sink.new ≡ K.place sink.old }
{
    let Some((first, more)) = addresses.split_first() else {
        return Ok(());
    };
    write_pieces(sink, &[Piece::Address(*first)])?;
    write_more_addresses(sink, more)
}

/// Appends addresses and what ends them.
fn write_list<K: Sink>(sink: &mut K, list: &[Addr], end: &[u8]) -> Result<(), Failed>
    ensures text { Writes (K.held sink.old) (K.held sink.new) result (addresses_text list.now ++ end.now) }
    ensures cause { HasCause (K.faults sink.old) (K.faults sink.new) result }
    ensures place { K.place sink.new ≡ K.place sink.old }
{
    write_addresses(sink, list)?;
    write_whole(sink, end)
}

/// Appends the calls of a call string, if there are any, and what ends them.
fn write_within<K: Sink>(sink: &mut K, within: &[Addr], end: &[u8]) -> Result<(), Failed>
    ensures text { Writes (K.held sink.old) (K.held sink.new) result (within_text within.now ++ end.now) }
    ensures cause { HasCause (K.faults sink.old) (K.faults sink.new) result }
    ensures place { K.place sink.new ≡ K.place sink.old }
{
    if within.is_empty() {
        return write_whole(sink, end);
    }
    write_whole(sink, b" in ")?;
    write_list(sink, within, end)
}

/// Appends how often visits count; once is written without its number.
fn write_times<K: Sink>(sink: &mut K, times: u32) -> Result<(), Failed>
    ensures text { Writes (K.held sink.old) (K.held sink.new) result (times_text times) }
    ensures cause { HasCause (K.faults sink.old) (K.faults sink.new) result }
    ensures place { K.place sink.new ≡ K.place sink.old }
{
    if times == 1 {
        return Ok(());
    }
    write_pieces(sink, &[Piece::Decimal(times as u128), Piece::Bytes(b" * ")])
}

/// Appends an address in its brackets.
fn write_visited<K: Sink>(sink: &mut K, at: Addr, within: &[Addr]) -> Result<(), Failed>
    ensures text { Writes (K.held sink.old) (K.held sink.new) result (visited_text at within.now) }
    ensures cause { HasCause (K.faults sink.old) (K.faults sink.new) result }
    ensures place { K.place sink.new ≡ K.place sink.old }
{
    write_pieces(sink, &[Piece::Bytes(b"["), Piece::Address(at)])?;
    write_within(sink, within, b"]")
}

fn write_visits<K: Sink>(sink: &mut K, times: u32, at: Addr, within: &[Addr]) -> Result<(), Failed>
    ensures text { Writes (K.held sink.old) (K.held sink.new) result (visits_text times at within.now) }
    ensures cause { HasCause (K.faults sink.old) (K.faults sink.new) result }
    ensures place { K.place sink.new ≡ K.place sink.old }
{
    write_times(sink, times)?;
    write_visited(sink, at, within)
}

fn write_term<K: Sink>(sink: &mut K, term: &Term) -> Result<(), Failed>
    ensures text { Writes (K.held sink.old) (K.held sink.new) result (term_text term.now) }
    ensures cause { HasCause (K.faults sink.old) (K.faults sink.new) result }
    ensures place { K.place sink.new ≡ K.place sink.old }
{
    match term {
        Term::Constant(number) => write_pieces(sink, &[Piece::Decimal(*number as u128)]),
        Term::Visits { times, at, within } => write_visits(sink, *times, *at, within.items()),
    }
}

/// Appends a term behind a `+`.
fn write_next_term<K: Sink>(sink: &mut K, term: &Term) -> Result<(), Failed>
    ensures text { Writes (K.held sink.old) (K.held sink.new) result (codes " + " ++ term_text term.now) }
    ensures cause { HasCause (K.faults sink.old) (K.faults sink.new) result }
    ensures place { K.place sink.new ≡ K.place sink.old }
{
    write_whole(sink, b" + ")?;
    write_term(sink, term)
}

fn write_more_terms<K: Sink>(sink: &mut K, terms: &[Term]) -> Result<(), Failed>
    ensures text { Writes (K.held sink.old) (K.held sink.new) result (more_terms_text terms.now) }
    ensures cause { HasCause (K.faults sink.old) (K.faults sink.new) result }
    ensures place { K.place sink.new ≡ K.place sink.old }
{
    for term in terms {
        write_next_term(sink, term)?;
    }
    Ok(())
}

/// Appends terms with ` + ` between them.
fn write_sum<K: Sink>(sink: &mut K, terms: &[Term]) -> Result<(), Failed>
    ensures text { Writes (K.held sink.old) (K.held sink.new) result (sum_text terms.now) }
    ensures cause { HasCause (K.faults sink.old) (K.faults sink.new) result }
    ensures place { K.place sink.new ≡ K.place sink.old }
{
    let Some((first, more)) = terms.split_first() else {
        return Ok(());
    };
    write_term(sink, first)?;
    write_more_terms(sink, more)
}

/// Appends the head and the bound of a loop.
fn write_bound<K: Sink>(sink: &mut K, at: Addr, bound: Option<u32>) -> Result<(), Failed>
    ensures text { Writes (K.held sink.old) (K.held sink.new) result (bounded_text at bound) }
    ensures cause { HasCause (K.faults sink.old) (K.faults sink.new) result }
    ensures place { K.place sink.new ≡ K.place sink.old }
{
    let value = match bound {
        Some(bound) => Piece::Decimal(bound as u128),
        None => Piece::Bytes(b"?"),
    };
    write_pieces(
        sink,
        &[
            Piece::Bytes(b"loop "),
            Piece::Address(at),
            Piece::Bytes(b" "),
            value,
        ],
    )
}

fn write_loop<K: Sink>(
    sink: &mut K,
    at: Addr,
    bound: Option<u32>,
    within: &[Addr],
) -> Result<(), Failed>
    ensures text { Writes (K.held sink.old) (K.held sink.new) result (loop_text at bound within.now) }
    ensures cause { HasCause (K.faults sink.old) (K.faults sink.new) result }
    ensures place { K.place sink.new ≡ K.place sink.old }
{
    write_bound(sink, at, bound)?;
    write_within(sink, within, b";")
}

/// Appends where an indirect jump or call may lead, behind the word of the fact.
fn write_branching<K: Sink>(sink: &mut K, word: &[u8], at: Addr, to: &[Addr]) -> Result<(), Failed>
    ensures text { Writes (K.held sink.old) (K.held sink.new) result (branching_text word.now at to.now) }
    ensures cause { HasCause (K.faults sink.old) (K.faults sink.new) result }
    ensures place { K.place sink.new ≡ K.place sink.old }
{
    let head = [
        Piece::Bytes(word),
        Piece::Address(at),
        Piece::Bytes(b" to "),
    ];
    write_pieces(sink, &head)?;
    write_list(sink, to, b";")
}

fn write_checksum<K: Sink>(sink: &mut K, name: &[u8], value: u32) -> Result<(), Failed>
    ensures text { Writes (K.held sink.old) (K.held sink.new) result (checksum_text name.now value) }
    ensures cause { HasCause (K.faults sink.old) (K.faults sink.new) result }
    ensures place { K.place sink.new ≡ K.place sink.old }
{
    write_pieces(
        sink,
        &[
            Piece::Bytes(b"checksum \""),
            Piece::Bytes(name),
            Piece::Bytes(b"\" "),
            Piece::Decimal(value as u128),
            Piece::Bytes(b";"),
        ],
    )
}

/// Appends the left side of an inequality.
fn write_left<K: Sink>(sink: &mut K, terms: &[Term]) -> Result<(), Failed>
    ensures text { Writes (K.held sink.old) (K.held sink.new) result (codes "limit " ++ sum_text terms.now) }
    ensures cause { HasCause (K.faults sink.old) (K.faults sink.new) result }
    ensures place { K.place sink.new ≡ K.place sink.old }
{
    write_whole(sink, b"limit ")?;
    write_sum(sink, terms)
}

/// Appends the right side of an inequality, with the sign before it.
fn write_right<K: Sink>(sink: &mut K, terms: &[Term]) -> Result<(), Failed>
    ensures text { Writes (K.held sink.old) (K.held sink.new) result (codes " <= " ++ sum_text terms.now) }
    ensures cause { HasCause (K.faults sink.old) (K.faults sink.new) result }
    ensures place { K.place sink.new ≡ K.place sink.old }
{
    write_whole(sink, b" <= ")?;
    write_sum(sink, terms)
}

/// Appends the right side of an inequality and the fact's end.
fn write_last_side<K: Sink>(sink: &mut K, terms: &[Term]) -> Result<(), Failed>
    ensures text { Writes (K.held sink.old) (K.held sink.new) result (last_side_text terms.now) }
    ensures cause { HasCause (K.faults sink.old) (K.faults sink.new) result }
    ensures place { K.place sink.new ≡ K.place sink.old }
{
    write_right(sink, terms)?;
    write_whole(sink, b";")
}

fn write_limit<K: Sink>(sink: &mut K, left: &[Term], right: &[Term]) -> Result<(), Failed>
    ensures text { Writes (K.held sink.old) (K.held sink.new) result (limit_text left.now right.now) }
    ensures cause { HasCause (K.faults sink.old) (K.faults sink.new) result }
    ensures place { K.place sink.new ≡ K.place sink.old }
{
    write_left(sink, left)?;
    write_last_side(sink, right)
}

/// Appends the fact as a text that reads as the fact. After `Failed` a prefix was appended.
pub fn write_fact<K: Sink>(sink: &mut K, fact: &Fact) -> Result<(), Failed>
    ensures text { Writes (K.held sink.old) (K.held sink.new) result (fact_text fact.now) }
    ensures cause { HasCause (K.faults sink.old) (K.faults sink.new) result }
    ensures place { K.place sink.new ≡ K.place sink.old }
{
    match fact {
        Fact::Loop { at, bound, within } => write_loop(sink, *at, *bound, within.items()),
        Fact::Multibranch { at, to } => write_branching(sink, b"multibranch ", *at, to.items()),
        Fact::Multicall { at, to } => write_branching(sink, b"multicall ", *at, to.items()),
        Fact::Noreturn { at } => write_pieces(
            sink,
            &[
                Piece::Bytes(b"noreturn "),
                Piece::Address(*at),
                Piece::Bytes(b";"),
            ],
        ),
        Fact::Checksum { name, value } => write_checksum(sink, name.items(), *value),
        Fact::Limit { left, right } => write_limit(sink, left.items(), right.items()),
    }
}

/// The text that `write_fact` appends. `read_one` of it gives the fact, with any image.
pub fn print_fact(alloc: Global, fact: &Fact) -> Result<Vec<u8>, AllocError>
    ensures text { IfOk result (λ text. text.items ≡ fact_text fact.now) }
    ensures again { IfOk result (λ text. IsStated fact.now → IsReadAs text.items fact.now) }
{
    let mut sink = MemorySink {
        place: 0,
        path: String::new(alloc),
        held: Vec::new(alloc),
        calls: 0,
        failing: Vec::new(alloc),
        faults: 0,
    };
    match write_fact(&mut sink, fact) {
        Ok(()) => Ok(sink.held),
        Err(Failed) => Err(AllocError),
    }
}
