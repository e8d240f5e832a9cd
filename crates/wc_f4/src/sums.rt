ghost use Rattle.std.specs.Prelude.{◌≤◌, IfOk, length};
ghost use Rattle.wc_f4.specs.Parts.{AddsTerm, Shortens, TakesSum, TakesTerm};
ghost use Rattle.wc_f4.specs.Places.{opening, term, times};
ghost use Rattle.wc_f4.specs.Views.{left};

use crate::addresses::{address, within};
use crate::lookups::Lookup;
use crate::readers::Reader;
use crate::stops::Stop;
use crate::tokens::Mark;
use std::alloc::Global;
use wc_model::{Sum, Term};

/// Reads the visits of an address in its brackets.
fn visits(alloc: Global, reader: &mut Reader, names: &mut Lookup, times: u32) -> Result<Term, Stop>
    ensures read { TakesTerm (λ side. opening side times) result names.old reader.old names.new reader.new }
    ensures shorter { Shortens result (left reader.old) (left reader.new) }
{
    reader.mark(Mark::Open)?;
    let at = address(reader, names)?;
    let within = within(alloc, reader, names)?;
    reader.mark(Mark::Close)?;
    Ok(Term::Visits { times, at, within })
}

/// Reads what may stand behind a number in a sum.
fn times(alloc: Global, reader: &mut Reader, names: &mut Lookup, number: u32) -> Result<Term, Stop>
    ensures read { TakesTerm (λ side. times side number) result names.old reader.old names.new reader.new }
    ensures shorter { IfOk result (λ _. length (left reader.new) ≤ length (left reader.old)) }
{
    if reader.has_mark(Mark::Star) {
        visits(alloc, reader, names, number)
    } else {
        Ok(Term::Constant(number))
    }
}

fn term(alloc: Global, reader: &mut Reader, names: &mut Lookup) -> Result<Term, Stop>
    ensures read { TakesTerm term result names.old reader.old names.new reader.new }
    ensures shorter { Shortens result (left reader.old) (left reader.new) }
{
    match reader.any_number() {
        Some(number) => times(alloc, reader, names, number),
        None => visits(alloc, reader, names, 1),
    }
}

/// Adds a term, and tells whether another one follows.
fn next_term(
    terms: &mut Vec<Term>,
    alloc: Global,
    reader: &mut Reader,
    names: &mut Lookup,
) -> Result<bool, Stop>
    ensures read { AddsTerm terms.old terms.new result names.old reader.old names.new reader.new }
    ensures shorter { Shortens result (left reader.old) (left reader.new) }
{
    let term = term(alloc, reader, names)?;
    terms.push(term)?;
    Ok(reader.has_mark(Mark::Plus))
}

/// Reads terms with `+` between them.
pub fn sum(alloc: Global, reader: &mut Reader, names: &mut Lookup) -> Result<Sum, Stop>
    ensures read { TakesSum result names.old reader.old names.new reader.new }
    ensures shorter { Shortens result (left reader.old) (left reader.new) }
{
    let mut terms = Vec::new(alloc);
    while next_term(&mut terms, alloc, reader, names)? {}
    Ok(Sum::new(terms))
}
