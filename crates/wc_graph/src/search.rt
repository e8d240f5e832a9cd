ghost use Rattle.std.specs.Prelude.{◌≡◌, ◌<◌, ◌≤◌, IfOk, length};
ghost use Rattle.wc_graph.specs.Inner.Codes.{IsCode};
ghost use Rattle.wc_graph.specs.Inner.Searches.{IsNext, IsReady, IsSearched, HasSkipped, AddsTurns, HasSearched, IsExploration};

use crate::code::Code;
use crate::faults::{Faulty, lesser};
use crate::frames::{Leap, Place, Turn};
use crate::opened::Opened;
use crate::stated::Stated;
use crate::turns::turns_of;
use std::alloc::{AllocError, Global};
use wc_base::{Addr, Fault};
use wc_model::Image;

/// The positions that were found, the functions that are open at each frame, and the first fault.
#[derive(Drop)]
pub struct Search {
    pub code: Code,
    pub opened: Opened,
    pub least: Option<Faulty>,
}

/// The ways and the steps of the position that is expanded.
#[derive(Drop)]
pub struct Own {
    pub turns: Vec<Turn>,
    pub leaps: Vec<Leap>,
}

impl Search {
    fn new(alloc: Global, entry: Addr) -> Result<Self, AllocError>
        ensures { IfOk result (IsSearched entry) }
    {
        Ok(Search {
            code: Code::new(alloc, entry)?,
            opened: Opened::new(alloc),
            least: None,
        })
    }

    // A faulty position has no steps.
    fn skip(&mut self, at: Addr, fault: Fault) -> Result<(), AllocError>
        ensures { IfOk result (λ _. HasSkipped self.old self.new at fault) }
    {
        self.code.leaps.push(&[])?;
        self.least = lesser(self.least, Faulty { at, fault });
        Ok(())
    }

    // The steps along the ways of a position; false where no more positions are analysed.
    fn add(&mut self, place: Place, own: &mut Own) -> Result<bool, AllocError>
        requires code { IsCode self.old.code }
        requires inside { place.frame < length self.old.code.frames.keys }
        requires few { length self.old.code.places.keys ≤ 100000 }
        ensures { IfOk result (AddsTurns self.old self.new place own.old.turns.items) }
    {
        let turns = own.turns.as_slice();
        if !self.code.expand(place, turns, &mut own.leaps)? {
            return Ok(false);
        }
        self.code.leaps.push(own.leaps.as_slice())?;
        Ok(true)
    }

    // The steps of the position that is next; false where no more positions are analysed.
    fn expand(
        &mut self,
        alloc: Global,
        image: &Image,
        stated: &Stated,
        place: Place,
        own: &mut Own,
    ) -> Result<bool, AllocError>
        requires ready { IsReady self.old }
        requires next { IsNext self.old place }
        ensures { IfOk result (HasSearched image.now stated.now self.old self.new) }
    {
        let frames = self.code.frames.as_slice();
        let opened = &mut self.opened;
        let told = turns_of(alloc, image, stated, frames, opened, place, &mut own.turns)?;
        if let Some(fault) = told {
            self.skip(place.pc, fault)?;
            return Ok(true);
        }
        self.add(place, own)
    }
}

/// All positions of the function at `entry`; nothing where they are too many.
pub fn explore(
    alloc: Global,
    image: &Image,
    stated: &Stated,
    entry: Addr,
) -> Result<Option<Search>, AllocError>
    ensures { IfOk result (IsExploration image.now stated.now entry) }
{
    let mut search = Search::new(alloc, entry)?;
    let mut own = Own {
        turns: Vec::new(alloc),
        leaps: Vec::new(alloc),
    };
    while search.code.leaps.len() < search.code.places.len() {
        let place = search.code.places.as_slice()[search.code.leaps.len()];
        if !search.expand(alloc, image, stated, place, &mut own)? {
            return Ok(None);
        }
    }
    Ok(Some(search))
}
