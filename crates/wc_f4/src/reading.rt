ghost use Rattle.std.specs.Prelude.{◌≡◌, [], ◌∷◌, false, All, IfOk, Ok};
ghost use Rattle.wc_f4.specs.Taking.{StandsAtEnd};
ghost use Rattle.wc_f4.specs.Parts.{AddsFact, Shortens, all_of, one_of};
ghost use Rattle.wc_f4.specs.Places.{Goes};
ghost use Rattle.wc_f4.specs.Reading.{GivesAll, ReadsFacts, ReadsOne, map_value, names_of, trouble_of};
ghost use Rattle.wc_f4.specs.Stated.{IsStated};
ghost use Rattle.wc_f4.specs.Tokens.{line_at, placed_tokens};
ghost use Rattle.wc_f4.specs.Views.{ahead, left};

use crate::facts::fact;
use crate::lookups::Lookup;
use crate::readers::Reader;
use crate::stops::Stop;
use std::alloc::Global;
use wc_base::{Fault, Trouble};
use wc_model::{Fact, Image};

/// The line of a place, from 1.
fn line_at(text: &[u8], place: usize) -> u64
    ensures { result ≡ line_at text.now place }
{
    let mut line = 1;
    let end = place.min(text.len());
    for byte in &text[..end] {
        if *byte == b'\n' {
            line += 1;
        }
    }
    line
}

fn trouble_of(text: &[u8], stop: Stop) -> Trouble
    ensures { result ≡ trouble_of text.now stop }
{
    match stop {
        Stop::Bad(place) => Trouble::Fault(Fault::BadFact(line_at(text, place))),
        Stop::Unknown(place) => Trouble::Fault(Fault::UnknownLabel(line_at(text, place))),
        Stop::Memory(error) => Trouble::Memory(error),
    }
}

/// Adds the next fact.
fn next_fact(
    facts: &mut Vec<Fact>,
    alloc: Global,
    reader: &mut Reader,
    names: &mut Lookup,
) -> Result<(), Stop>
    requires { StandsAtEnd false (left reader.old) }
    ensures read { AddsFact facts.old facts.new result names.old reader.old names.new reader.new }
    ensures shorter { Shortens result (left reader.old) (left reader.new) }
{
    let fact = fact(alloc, reader, names)?;
    facts.push(fact)?;
    Ok(())
}

fn all_facts(alloc: Global, reader: &mut Reader, names: &mut Lookup) -> Result<Vec<Fact>, Stop>
    ensures { Goes result (all_of (ahead names.old reader.old)) (λ facts. Ok facts.items) }
{
    let mut facts = Vec::new(alloc);
    'facts: while !reader.is_at_end() {
        next_fact(&mut facts, alloc, reader, names)?;
    }
    Ok(facts)
}

fn one_fact(alloc: Global, reader: &mut Reader, names: &mut Lookup) -> Result<Fact, Stop>
    ensures { Goes result (one_of (ahead names.old reader.old)) (λ fact. Ok (fact ∷ [])) }
{
    let fact = fact(alloc, reader, names)?;
    if reader.is_at_end() {
        Ok(fact)
    } else {
        Err(Stop::Bad(reader.place()))
    }
}

fn facts_of(alloc: Global, text: &[u8], image: &Image) -> Result<Vec<Fact>, Stop>
    ensures { Goes result (all_of (names_of image.now, placed_tokens text.now)) (λ facts. Ok facts.items) }
{
    let mut reader = Reader::new(text);
    let mut names = Lookup::new(alloc, image);
    all_facts(alloc, &mut reader, &mut names)
}

fn fact_of(alloc: Global, text: &[u8], image: &Image) -> Result<Fact, Stop>
    ensures { Goes result (one_of (names_of image.now, placed_tokens text.now)) (λ fact. Ok (fact ∷ [])) }
{
    let mut reader = Reader::new(text);
    let mut names = Lookup::new(alloc, image);
    one_fact(alloc, &mut reader, &mut names)
}

/// The facts that a text states. Names in addresses are those of the image. The fault is that of the first token
/// that is wrong, with its line from 1: `UnknownLabel` where it is the name of an address that `find` refuses, else
/// `BadFact`.
pub fn read_facts(alloc: Global, text: &[u8], image: &Image) -> Result<Vec<Fact>, Trouble>
    ensures read { ReadsFacts (names_of image.now) text.now (map_value (λ facts. facts.items) result) }
    ensures only { GivesAll (names_of image.now) text.now (map_value (λ facts. facts.items) result) }
    ensures stated { IfOk result (λ facts. All IsStated facts.items) }
{
    match facts_of(alloc, text, image) {
        Ok(facts) => Ok(facts),
        Err(stop) => Err(trouble_of(text, stop)),
    }
}

/// The one fact that a text states, with the faults of `read_facts`.
pub fn read_one(alloc: Global, text: &[u8], image: &Image) -> Result<Fact, Trouble>
    ensures read { ReadsOne (names_of image.now) text.now result }
    ensures stated { IfOk result IsStated }
{
    match fact_of(alloc, text, image) {
        Ok(fact) => Ok(fact),
        Err(stop) => Err(trouble_of(text, stop)),
    }
}
