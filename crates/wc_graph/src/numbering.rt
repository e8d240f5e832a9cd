ghost use Rattle.std.specs.Prelude.{◌≡◌, ◌<◌, ◌≤◌, IfOk, List, Vec, length};
ghost use Rattle.wc_graph.specs.Inner.Inverses.{IsPlacedTo};
ghost use Rattle.wc_graph.specs.Inner.Lists.{Inside};
ghost use Rattle.wc_graph.specs.Inner.Numberings.{AreNumbered, HasFrames, HasPlaces, IsSized, IsSurveyed};

use crate::families::families;
use crate::inverse::inverse;
use crate::live::live_frames;
use crate::order::order;
use crate::survey::Survey;
use crate::walk::listed;
use std::alloc::{AllocError, Global};

/// Numbers in an order, and per number its place in that order, if it has one.
#[derive(Drop)]
pub struct Numbering {
    pub order: Vec<u32>,
    pub numbers: Vec<Option<u32>>,
}

// The places of numbers in their order.
fn numbered(alloc: Global, count: usize, order: Vec<u32>) -> Result<Numbering, AllocError>
    requires few { length order.items ≤ 100000 }
    requires inside { Inside count order.items }
    ensures order { IfOk result (λ n. n.order.items ≡ order.items) }
    ensures placed { IfOk result (λ n. IsPlacedTo count order.items (length order.items) n.numbers.items) }
{
    let numbers = inverse(alloc, count, order.as_slice())?;
    Ok(Numbering { order, numbers })
}

/// The frames of live positions, in the order of their stacks.
pub fn number_frames(alloc: Global, survey: &Survey) -> Result<Numbering, AllocError>
    requires { IsSurveyed survey.now }
    ensures { IfOk result (HasFrames survey.now) }
{
    let frames = survey.code.frames.as_slice();
    let places = survey.code.places.as_slice();
    let live = live_frames(alloc, frames.len(), places, survey.live.as_slice())?;
    let kids = families(alloc, frames, live.as_slice())?;
    let order = listed(alloc, frames, live.as_slice(), &kids)?;
    numbered(alloc, frames.len(), order)
}

/// The live positions, in the order of their stacks and then of their addresses.
pub fn number_places(
    alloc: Global,
    survey: &Survey,
    frames: &Numbering,
) -> Result<Numbering, AllocError>
    requires sized { IsSized survey.now }
    requires frames { length frames.now.numbers.items ≡ length survey.now.code.frames.keys }
    ensures { IfOk result (HasPlaces survey.now frames.now) }
{
    let places = survey.code.places.as_slice();
    let ranks = frames.numbers.as_slice();
    let order = order(alloc, places, survey.live.as_slice(), ranks)?;
    numbered(alloc, places.len(), order)
}
