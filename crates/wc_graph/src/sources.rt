ghost use Rattle.std.specs.Prelude.{◌≡◌, ◌<◌, ◌≤◌, ◌++◌, ◌∷◌, [], IfOk, IfSome, List, map, length};
ghost use Rattle.wc_graph.specs.declared.frames.Leap.{Leap};
ghost use Rattle.wc_graph.specs.Inner.Lists.{Has};
ghost use Rattle.wc_graph.specs.Inner.Sources.{AreSources, AreTargets, Takes, edge_of, edges_from};

use crate::buckets::Buckets;
use crate::frames::Leap;
use crate::rows::Rows;
use std::alloc::{AllocError, Global};

/// Per number those with a step to it, and those with a step to nothing.
#[derive(Drop)]
pub struct Sources {
    pub into: Buckets,
    pub exits: Vec<u32>,
}

impl Sources {
    pub fn new(alloc: Global, count: usize) -> Result<Self, AllocError>
        ensures { IfOk result (AreSources count []) }
    {
        let into = Buckets::new(alloc, count, count)?;
        let exits = Vec::new(alloc);
        Ok(Sources { into, exits })
    }

    /// One step more.
    pub fn add(&mut self, source: u32, target: Option<u32>) -> Result<(), AllocError>
        requires inside { IfSome target (λ t. t < length self.old.into) }
        ensures sources { IfOk result (λ _. Takes ((source, target) ∷ []) self.old self.new) }
        ensures count { IfOk result (λ _. length self.new.into ≡ length self.old.into) }
    {
        let Some(target) = target else {
            self.exits.push(source)?;
            return Ok(());
        };
        self.into.add(target as usize, source)?;
        Ok(())
    }

    // The steps of one position.
    fn add_all(&mut self, source: u32, leaps: &[Leap]) -> Result<(), AllocError>
        requires inside { AreTargets (length self.old.into) leaps.now }
        ensures sources { IfOk result (λ _. Takes (map (edge_of source) leaps.now) self.old self.new) }
        ensures count { IfOk result (λ _. length self.new.into ≡ length self.old.into) }
    {
        for leap in leaps {
            self.add(source, leap.target)?;
        }
        Ok(())
    }
}

/// The positions with a step to each position, and to the exit.
pub fn sources_of(alloc: Global, leaps: &Rows) -> Result<Sources, AllocError>
    requires few { length leaps.now ≤ 100000 }
    requires inside { (own : List Leap) → Has leaps.now own → AreTargets (length leaps.now) own }
    ensures { IfOk result (AreSources (length leaps.now) (edges_from 0 leaps.now)) }
{
    let mut sources = Sources::new(alloc, leaps.len())?;
    for number in 0..leaps.len() {
        sources.add_all(number as u32, leaps.row(number))?;
    }
    Ok(sources)
}
