ghost use Rattle.std.specs.Prelude.{◌≤◌, IfOk, length};
ghost use Rattle.wc_f4.specs.Parts.{AddsAddress, ReadsAddress, Shortens, TakesAddress, TakesList, before_list, before_within};
ghost use Rattle.wc_f4.specs.Places.{above, address, below, label, moved};
ghost use Rattle.wc_f4.specs.Views.{Alone, left};

use crate::lookups::Lookup;
use crate::readers::Reader;
use crate::stops::Stop;
use crate::tokens::{Mark, Word};
use std::alloc::Global;
use wc_base::Addr;
use wc_model::Targets;

/// Reads a distance upwards, which may not leave the addresses.
fn above(reader: &mut Reader, base: Addr) -> Result<Addr, Stop>
    ensures read { Alone (ReadsAddress (λ part. above part base) result) reader.old reader.new }
    ensures shorter { Shortens result (left reader.old) (left reader.new) }
{
    let place = reader.place();
    let distance = reader.number()?;
    match base.checked_add(distance) {
        Some(at) => Ok(at),
        None => Err(Stop::Bad(place)),
    }
}

/// Reads a distance downwards, which may not leave the addresses.
fn below(reader: &mut Reader, base: Addr) -> Result<Addr, Stop>
    ensures read { Alone (ReadsAddress (λ part. below part base) result) reader.old reader.new }
    ensures shorter { Shortens result (left reader.old) (left reader.new) }
{
    let place = reader.place();
    let distance = reader.number()?;
    match base.checked_sub(distance) {
        Some(at) => Ok(at),
        None => Err(Stop::Bad(place)),
    }
}

/// Reads what may stand behind a name in an address.
fn moved(reader: &mut Reader, base: Addr) -> Result<Addr, Stop>
    ensures read { Alone (ReadsAddress (λ part. moved part base) result) reader.old reader.new }
    ensures shorter { IfOk result (λ _. length (left reader.new) ≤ length (left reader.old)) }
{
    if reader.has_mark(Mark::Plus) {
        above(reader, base)
    } else if reader.has_mark(Mark::Minus) {
        below(reader, base)
    } else {
        Ok(base)
    }
}

/// Reads a name and what may stand behind it.
fn named(reader: &mut Reader, names: &mut Lookup) -> Result<Addr, Stop>
    ensures read { TakesAddress label result names.old reader.old names.new reader.new }
    ensures shorter { Shortens result (left reader.old) (left reader.new) }
{
    let place = reader.place();
    let name = reader.quoted()?;
    match names.find(name)? {
        Some(base) => moved(reader, base),
        None => Err(Stop::Unknown(place)),
    }
}

/// Reads an address.
pub fn address(reader: &mut Reader, names: &mut Lookup) -> Result<Addr, Stop>
    ensures read { TakesAddress address result names.old reader.old names.new reader.new }
    ensures shorter { Shortens result (left reader.old) (left reader.new) }
{
    match reader.any_number() {
        Some(at) => Ok(at),
        None => named(reader, names),
    }
}

/// Adds an address, and tells whether another one follows.
fn next_address(
    addresses: &mut Vec<Addr>,
    reader: &mut Reader,
    names: &mut Lookup,
) -> Result<bool, Stop>
    ensures read { AddsAddress addresses.old addresses.new result names.old reader.old names.new reader.new }
    ensures shorter { Shortens result (left reader.old) (left reader.new) }
{
    let at = address(reader, names)?;
    addresses.push(at)?;
    Ok(reader.has_mark(Mark::Comma))
}

/// Reads addresses with `,` between them.
pub fn addresses(alloc: Global, reader: &mut Reader, names: &mut Lookup) -> Result<Targets, Stop>
    ensures read { TakesList before_list result names.old reader.old names.new reader.new }
    ensures shorter { Shortens result (left reader.old) (left reader.new) }
{
    let mut addresses = Vec::new(alloc);
    while next_address(&mut addresses, reader, names)? {}
    Ok(Targets::new(addresses))
}

/// Reads the calls of a call string, if there is one.
pub fn within(alloc: Global, reader: &mut Reader, names: &mut Lookup) -> Result<Targets, Stop>
    ensures read { TakesList before_within result names.old reader.old names.new reader.new }
    ensures shorter { IfOk result (λ _. length (left reader.new) ≤ length (left reader.old)) }
{
    if reader.has_keyword(Word::In) {
        addresses(alloc, reader, names)
    } else {
        Ok(Targets::new(Vec::new(alloc)))
    }
}
