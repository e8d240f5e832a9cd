ghost use Rattle.std.specs.Prelude.{◌≡◌, ◌<◌, IfOk, Some, length, slice_get};
ghost use Rattle.wc_nestsolve.specs.Inner.Passes.{class_of};
ghost use Rattle.wc_nestsolve.specs.Inner.Ways.{AreWays};
ghost use Rattle.wc_nestsolve.specs.Inner.Solvable.{IsSolvable};

use crate::classes::classes;
use crate::order::order;
use std::alloc::{AllocError, Global};
use wc_model::walks::starts;
use wc_model::{Nest, System, SystemLoop, Table};

/// All nodes, each after those that its steps ahead lead to; per loop those of its class, in the same order; and per
/// node the place of its first step.
#[derive(Drop)]
pub struct Ways {
    pub order: Vec<u32>,
    pub classes: Vec<Table<u32>>,
    pub starts: Vec<usize>,
}

pub fn find_ways(alloc: Global, system: &System, nest: &Nest) -> Result<Ways, AllocError>
    requires { IsSolvable nest.now system.now }
    ensures { IfOk result (AreWays system.now nest.now) }
{
    let order = order(alloc, system, nest)?;
    let classes = classes(alloc, system, nest, order.as_slice())?;
    let starts = starts(alloc, system.nodes, system.steps.items())?;
    Ok(Ways {
        order,
        classes,
        starts,
    })
}

/// The loop at a place.
pub fn loop_at(system: &System, place: usize) -> &SystemLoop
    requires { place < length system.now.loops }
    ensures { slice_get system.now.loops place ≡ Some result.now }
{
    &system.loops.items()[place]
}

/// The nodes of the class of a loop.
pub fn class_at(ways: &Ways, place: usize) -> &[u32]
    requires { place < length ways.now.classes.items }
    ensures { result.now ≡ class_of ways.now.classes.items place }
{
    ways.classes[place].items()
}
