ghost use Rattle.std.specs.Prelude.{◌≡◌, ℕ, ◌+◌, ◌<◌, ◌^◌, All, IfOk, IfSome, Some, length, slice_index};
ghost use Rattle.std.specs.List.{sum_by};
ghost use Rattle.wc_model.specs.Flow.Places.{IsOnce};
ghost use Rattle.wc_nestsolve.specs.Inner.Adding.{AreRoomy, AreWalkable, IsAdded, entered_times, goes_on};
ghost use Rattle.wc_nestsolve.specs.Inner.Trails.{walk_from};

use crate::found::Found;
use std::alloc::{AllocError, Global};
use wc_model::{Nest, System, SystemLoop};

// Where a walk goes on after a step, if the step doesn't end it.
fn next(system: &System, nest: &Nest, best: &[Option<Found>], place: u32) -> Option<u32>
    requires walkable { AreWalkable system.now nest.now best.now }
    requires known { place < length system.now.steps }
    ensures next { result ≡ goes_on system.now nest.now place }
    ensures known { IfSome result (λ q. q < system.now.nodes) }
{
    if nest.back.items()[place as usize] {
        return None;
    }
    let step = system.steps.items()[place as usize];
    step.target
}

/// The places of the steps of the best way from a node.
pub fn follow(
    alloc: Global,
    system: &System,
    nest: &Nest,
    best: &[Option<Found>],
    start: u32,
    most: usize,
) -> Result<Vec<u32>, AllocError>
    requires walkable { AreWalkable system.now nest.now best.now }
    requires start { start < system.now.nodes }
    ensures { IfOk result (λ w. w.items ≡ walk_from system.now nest.now best.now most (Some start)) }
{
    let mut walk = Vec::with_capacity(alloc, most)?;
    let mut at = start;
    for _step in 0..most {
        let Some(found) = best[at as usize] else {
            return Ok(walk);
        };
        walk.push(found.place)?;
        match next(system, nest, best, found.place) {
            Some(target) => at = target,
            None => return Ok(walk),
        }
    }
    Ok(walk)
}

/// Adds a walk to the counts, some number of times.
pub fn add(walk: &[u32], times: u128, x: &mut Vec<u128>)
    requires known { All (λ i. i < length x.old.items) walk.now }
    requires once { IsOnce walk.now }
    requires room { AreRoomy times x.old.items }
    ensures { IsAdded walk.now times x.old.items x.new.items }
{
    for place in walk {
        x[*place as usize] += times;
    }
}

/// How often a loop is entered.
pub fn entered(own: &SystemLoop, start: u32, x: &[u128]) -> u128
    requires known { All (λ i. i < length x.now) own.now.entry }
    requires room { sum_by (slice_index x.now) own.now.entry < 2 ^ 127 }
    ensures { result ≡ entered_times own.now start x.now }
{
    let mut sum: u128 = if own.head == start { 1 } else { 0 };
    for place in own.entry.items() {
        sum += x[*place as usize];
    }
    sum
}
