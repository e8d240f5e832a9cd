ghost use Rattle.std.specs.Prelude.{◌≡◌, codes, flat_map};
ghost use Rattle.wc_io.specs.Causes.{HasCause};
ghost use Rattle.wc_io.specs.Writing.{Writes};
ghost use Rattle.wc_report.specs.ReplyText.{counts_text, listed_text, numbered_text};
ghost use Rattle.wc_report.specs.ReplyText.{asked_text, reply_text, timing_text};

use crate::edits::write_timing;
use wc_base::{Fault, Trouble};
use wc_f4::write_fact;
use wc_io::{Failed, Piece, Sink, write_pieces};
use wc_model::{Asked, Fact, Hardware, Listing, Outcome, Text};

/// What a line is replied with.
#[derive(Debug, Drop)]
pub enum Reply {
    /// The count of an accepted edit.
    Edit(u64),
    /// What was asked for, and its answer.
    Bound(Text, Asked),
    Refused(Fault),
    Listing(Listing),
    Memory,
}

impl From<Trouble> for Reply {
    ghost use Rattle.std.specs.Prelude.{◌≡◌};
    ghost use Rattle.wc_report.specs.ReplyText.{reply_to_trouble};

    ghost from_gives = { λ trouble reply. reply ≡ reply_to_trouble trouble };

    fn from(trouble: Trouble) -> Reply {
        match trouble {
            Trouble::Fault(fault) => Reply::Refused(fault),
            Trouble::Memory(_) => Reply::Memory,
        }
    }
}

fn write_memory<K: Sink>(sink: &mut K) -> Result<(), Failed>
    ensures text { Writes (K.held sink.old) (K.held sink.new) result (codes "memory\n") }
    ensures cause { HasCause (K.faults sink.old) (K.faults sink.new) result }
    ensures place { K.place sink.new ≡ K.place sink.old }
{
    write_pieces(sink, &[Piece::Bytes(b"memory\n")])
}

fn write_asked<K: Sink>(sink: &mut K, name: &[u8], asked: Asked) -> Result<(), Failed>
    ensures text { Writes (K.held sink.old) (K.held sink.new) result (asked_text name.now asked) }
    ensures cause { HasCause (K.faults sink.old) (K.faults sink.new) result }
    ensures place { K.place sink.new ≡ K.place sink.old }
{
    match asked.outcome {
        Outcome::Bound(cycles) => write_pieces(
            sink,
            &[
                Piece::Bytes(b"bound "),
                Piece::Bytes(name),
                Piece::Bytes(b" "),
                Piece::Decimal(cycles),
                Piece::Bytes(b" at "),
                Piece::Decimal(asked.at as u128),
                Piece::Bytes(b"\n"),
            ],
        ),
        Outcome::Fault(fault) => write_pieces(
            sink,
            &[
                Piece::Bytes(b"refused "),
                Piece::Fault(fault),
                Piece::Bytes(b" at "),
                Piece::Decimal(asked.at as u128),
                Piece::Bytes(b"\n"),
            ],
        ),
        Outcome::Memory => write_memory(sink),
    }
}

fn write_numbered<K: Sink>(sink: &mut K, numbered: &(u64, Fact)) -> Result<(), Failed>
    ensures text { Writes (K.held sink.old) (K.held sink.new) result (numbered_text numbered.now) }
    ensures cause { HasCause (K.faults sink.old) (K.faults sink.new) result }
    ensures place { K.place sink.new ≡ K.place sink.old }
{
    match write_pieces(
        sink,
        &[Piece::Decimal(numbered.0 as u128), Piece::Bytes(b" ")],
    ) {
        Ok(()) => {}
        Err(Failed) => return Err(Failed),
    }
    match write_fact(sink, &numbered.1) {
        Ok(()) => write_pieces(sink, &[Piece::Bytes(b"\n")]),
        Err(Failed) => Err(Failed),
    }
}

fn write_facts<K: Sink>(sink: &mut K, facts: &[(u64, Fact)]) -> Result<(), Failed>
    ensures text { Writes (K.held sink.old) (K.held sink.new) result (flat_map numbered_text facts.now) }
    ensures cause { HasCause (K.faults sink.old) (K.faults sink.new) result }
    ensures place { K.place sink.new ≡ K.place sink.old }
{
    for fact in facts {
        match write_numbered(sink, fact) {
            Ok(()) => {}
            Err(Failed) => return Err(Failed),
        }
    }
    Ok(())
}

fn write_hardware_line<K: Sink>(sink: &mut K, hardware: &Hardware) -> Result<(), Failed>
    ensures text { Writes (K.held sink.old) (K.held sink.new) result (timing_text hardware.now) }
    ensures cause { HasCause (K.faults sink.old) (K.faults sink.new) result }
    ensures place { K.place sink.new ≡ K.place sink.old }
{
    match write_timing(sink, hardware) {
        Ok(()) => write_pieces(sink, &[Piece::Bytes(b"\n")]),
        Err(Failed) => Err(Failed),
    }
}

fn write_counts<K: Sink>(sink: &mut K, facts: usize, at: u64) -> Result<(), Failed>
    ensures text { Writes (K.held sink.old) (K.held sink.new) result (counts_text facts at) }
    ensures cause { HasCause (K.faults sink.old) (K.faults sink.new) result }
    ensures place { K.place sink.new ≡ K.place sink.old }
{
    write_pieces(
        sink,
        &[
            Piece::Bytes(b"list "),
            Piece::Decimal(facts as u128),
            Piece::Bytes(b" at "),
            Piece::Decimal(at as u128),
            Piece::Bytes(b"\n"),
        ],
    )
}

fn write_listing<K: Sink>(
    sink: &mut K,
    at: u64,
    facts: &[(u64, Fact)],
    hardware: &Hardware,
) -> Result<(), Failed>
    ensures text { Writes (K.held sink.old) (K.held sink.new) result (listed_text at facts.now hardware.now) }
    ensures cause { HasCause (K.faults sink.old) (K.faults sink.new) result }
    ensures place { K.place sink.new ≡ K.place sink.old }
{
    match write_counts(sink, facts.len(), at) {
        Ok(()) => {}
        Err(Failed) => return Err(Failed),
    }
    match write_facts(sink, facts) {
        Ok(()) => write_hardware_line(sink, hardware),
        Err(Failed) => Err(Failed),
    }
}

/// Appends the lines of a reply. It takes no memory. After `Failed` a prefix of them was appended.
pub fn write_reply<K: Sink>(sink: &mut K, reply: &Reply) -> Result<(), Failed>
    ensures text { Writes (K.held sink.old) (K.held sink.new) result (reply_text reply.now) }
    ensures cause { HasCause (K.faults sink.old) (K.faults sink.new) result }
    ensures place { K.place sink.new ≡ K.place sink.old }
{
    match reply {
        Reply::Edit(count) => write_pieces(
            sink,
            &[
                Piece::Bytes(b"edit "),
                Piece::Decimal(*count as u128),
                Piece::Bytes(b"\n"),
            ],
        ),
        Reply::Bound(name, asked) => write_asked(sink, name.items(), *asked),
        Reply::Refused(fault) => write_pieces(
            sink,
            &[
                Piece::Bytes(b"refused "),
                Piece::Fault(*fault),
                Piece::Bytes(b"\n"),
            ],
        ),
        Reply::Listing(listing) => write_listing(
            sink,
            listing.at,
            listing.facts.items(),
            &listing.hardware,
        ),
        Reply::Memory => write_memory(sink),
    }
}
