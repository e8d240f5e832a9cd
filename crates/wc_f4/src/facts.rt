ghost use Rattle.std.specs.Prelude.{◌≡◌, [], IfOk};
ghost use Rattle.wc_f4.specs.Parts.{ReadsBound, ReadsEnd, ReadsFact, Shortens, TakesFact};
ghost use Rattle.wc_f4.specs.Places.{address, branching, first, left as left_sum, looped, name, noreturn, term};
ghost use Rattle.wc_f4.specs.Views.{Alone, left};

use crate::addresses::{address, addresses, within};
use crate::branchings::{Branching, branching_fact};
use crate::lookups::Lookup;
use crate::readers::Reader;
use crate::stops::Stop;
use crate::sums::sum;
use crate::tokens::{Mark, Word};
use std::alloc::{AllocError, Global};
use wc_model::{Fact, Text};

fn copy_of(alloc: Global, bytes: &[u8]) -> Result<Text, AllocError>
    ensures { IfOk result (λ copy. copy ≡ bytes.now) }
{
    let mut copy = Vec::new(alloc);
    copy.extend_from_slice(bytes)?;
    Ok(Text::new(copy))
}

/// Reads the end of a fact, at a place where nothing else may stand.
fn closed(reader: &mut Reader, fact: Fact) -> Result<Fact, Stop>
    ensures read { Alone (ReadsEnd fact result) reader.old reader.new }
    ensures shorter { Shortens result (left reader.old) (left reader.new) }
{
    reader.mark(Mark::Semicolon)?;
    Ok(fact)
}

/// Reads the bound of a loop.
fn bound(reader: &mut Reader) -> Result<Option<u32>, Stop>
    ensures read { Alone (ReadsBound result) reader.old reader.new }
    ensures shorter { Shortens result (left reader.old) (left reader.new) }
{
    if reader.has_mark(Mark::Question) {
        return Ok(None);
    }
    Ok(Some(reader.number()?))
}

fn loop_fact(alloc: Global, reader: &mut Reader, names: &mut Lookup) -> Result<Fact, Stop>
    ensures read { TakesFact (address looped) result names.old reader.old names.new reader.new }
    ensures shorter { Shortens result (left reader.old) (left reader.new) }
{
    let at = address(reader, names)?;
    let bound = bound(reader)?;
    let within = within(alloc, reader, names)?;
    closed(reader, Fact::Loop { at, bound, within })
}

/// Reads where an indirect jump or call may lead.
fn branching(
    alloc: Global,
    reader: &mut Reader,
    names: &mut Lookup,
    kind: Branching,
) -> Result<Fact, Stop>
    ensures read { TakesFact (address (branching kind)) result names.old reader.old names.new reader.new }
    ensures shorter { Shortens result (left reader.old) (left reader.new) }
{
    let at = address(reader, names)?;
    reader.keyword(Word::To)?;
    let to = addresses(alloc, reader, names)?;
    closed(reader, branching_fact(kind, at, to))
}

fn noreturn_fact(reader: &mut Reader, names: &mut Lookup) -> Result<Fact, Stop>
    ensures read { TakesFact (address noreturn) result names.old reader.old names.new reader.new }
    ensures shorter { Shortens result (left reader.old) (left reader.new) }
{
    let at = address(reader, names)?;
    closed(reader, Fact::Noreturn { at })
}

fn checksum(alloc: Global, reader: &mut Reader) -> Result<Fact, Stop>
    ensures read { Alone (ReadsFact name result) reader.old reader.new }
    ensures shorter { Shortens result (left reader.old) (left reader.new) }
{
    let quoted = reader.quoted()?;
    let value = reader.number()?;
    let name = copy_of(alloc, quoted)?;
    closed(reader, Fact::Checksum { name, value })
}

fn limit(alloc: Global, reader: &mut Reader, names: &mut Lookup) -> Result<Fact, Stop>
    ensures read { TakesFact (term (left_sum [])) result names.old reader.old names.new reader.new }
    ensures shorter { Shortens result (left reader.old) (left reader.new) }
{
    let left = sum(alloc, reader, names)?;
    reader.mark(Mark::AtMost)?;
    let right = sum(alloc, reader, names)?;
    closed(reader, Fact::Limit { left, right })
}

/// Reads a fact.
pub fn fact(alloc: Global, reader: &mut Reader, names: &mut Lookup) -> Result<Fact, Stop>
    ensures read { TakesFact first result names.old reader.old names.new reader.new }
    ensures shorter { Shortens result (left reader.old) (left reader.new) }
{
    let place = reader.place();
    match reader.word()? {
        Word::Loop => loop_fact(alloc, reader, names),
        Word::Multibranch => branching(alloc, reader, names, Branching::Jump),
        Word::Multicall => branching(alloc, reader, names, Branching::Call),
        Word::Noreturn => noreturn_fact(reader, names),
        Word::Checksum => checksum(alloc, reader),
        Word::Limit => limit(alloc, reader, names),
        Word::To | Word::In | Word::Other => Err(Stop::Bad(place)),
    }
}
