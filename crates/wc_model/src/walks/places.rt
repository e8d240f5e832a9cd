ghost use Rattle.std.specs.Prelude.{◌≡◌, ◌+◌, ℕ, ◌<◌, ◌≤◌, length, slice_get, IfOk, Some};
ghost use Rattle.wc_model.specs.Inner.Searches.{LeaveBefore};
ghost use Rattle.wc_model.specs.Flow.Walks.{AreSteps, AreStarts, AreStepsOf};

use crate::walks::Arrow;
use std::alloc::{AllocError, Global};

/// Per node the place of its first step, and the number of steps after the last one. The steps of a node
/// stand between its place and the next one.
pub fn starts<S: Arrow>(alloc: Global, nodes: u32, steps: &[S]) -> Result<Vec<usize>, AllocError>
    requires { AreSteps S.ends nodes steps.now }
    ensures { IfOk result (λ v. AreStarts S.ends (nodes + 1) steps.now v.items) }
{
    let mut starts = Vec::with_capacity(alloc, nodes as usize + 1)?;
    let mut place = 0;
    for node in 0..nodes {
        place = first_from(steps, node, place);
        starts.push(place)?;
    }
    starts.push(steps.len())?;
    Ok(starts)
}

/// The steps of a node.
pub fn steps_from<'a, S: Arrow>(steps: &'a [S], starts: &[usize], node: u32) -> &'a [S]
    requires starts { AreStarts S.ends (length starts.now) steps.now starts.now }
    requires known { node + 1 < length starts.now }
    ensures { AreStepsOf S.ends steps.now node result.now }
{
    let from = starts[node as usize];
    let to = starts[node as usize + 1];
    &steps[from..to]
}

// The first place at or after `from` whose step leaves `node` or a later one.
fn first_from<S: Arrow>(steps: &[S], node: u32, from: usize) -> usize
    requires { from ≤ length steps.now }
    ensures least { from ≤ result }
    ensures inside { result ≤ length steps.now }
    ensures below { LeaveBefore S.ends steps.now node from result }
    ensures ends { (s : S) → slice_get steps.now result ≡ Some s → node ≤ (S.ends s).source }
{
    let mut place = from;
    while place < steps.len() && steps[place].source() < node {
        place += 1;
    }
    place
}
