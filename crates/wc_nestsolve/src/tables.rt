ghost use Rattle.std.specs.Prelude.{◌≡◌, ℕ, ◌+◌, ◌<◌, length, slice_get, Some};
ghost use Rattle.wc_model.specs.Flow.Ends.{system_ends};
ghost use Rattle.wc_model.specs.Flow.Walks.{AreStarts};
ghost use Rattle.wc_nestsolve.specs.Inner.Tables.{AreFillable, AreSmall, AreTables, IsBestOf, IsClear, IsFilled};
ghost use Rattle.wc_nestsolve.specs.Inner.Tables.{StandIn, found_at, value_of_found};

use crate::found::{Found, best_step};
use wc_model::{Nest, System};

// The best step of a node.
fn find(
    system: &System,
    nest: &Nest,
    starts: &[usize],
    goal: Option<u32>,
    node: u32,
    extra: &[u128],
    best: &[Option<Found>],
) -> Option<Found>
    requires lists { AreTables system.now nest.now extra.now best.now }
    requires starts { AreStarts system_ends (system.now.nodes + 1) system.now.steps starts.now }
    requires known { node < system.now.nodes }
    requires small { AreSmall extra.now best.now }
    ensures { IsBestOf system.now nest.now goal node extra.now best.now result }
{
    let from = starts[node as usize];
    let to = starts[node as usize + 1];
    best_step(system, nest, from, to, goal, extra, best)
}

/// Finds the best way to the goal for each node of a list, in which steps ahead lead to nodes before.
pub fn fill(
    system: &System,
    nest: &Nest,
    starts: &[usize],
    goal: Option<u32>,
    nodes: &[u32],
    extra: &[u128],
    best: &mut Vec<Option<Found>>,
)
    requires lists { AreTables system.now nest.now extra.now best.old.items }
    requires starts { AreStarts system_ends (system.now.nodes + 1) system.now.steps starts.now }
    requires nodes { AreFillable system.now nest.now extra.now nodes.now }
    requires clear { IsClear best.old.items }
    ensures { IsFilled system.now nest.now goal extra.now nodes.now (length nodes.now) best.new.items }
{
    for node in nodes {
        let found = find(system, nest, starts, goal, *node, extra, best.as_slice());
        best[*node as usize] = found;
    }
}

/// Forgets what was found at some nodes.
pub fn clear(nodes: &[u32], best: &mut Vec<Option<Found>>)
    requires known { (i p : ℕ) → slice_get nodes.now i ≡ Some p → p < length best.old.items }
    requires within { StandIn nodes.now 0 best.old.items }
    ensures clear { IsClear best.new.items }
    ensures counted { length best.new.items ≡ length best.old.items }
{
    for node in nodes {
        best[*node as usize] = None;
    }
}

/// What is found at a node, and 0 where nothing is.
pub fn value_at(best: &[Option<Found>], node: u32) -> u128
    requires { node < length best.now }
    ensures { result ≡ value_of_found (found_at best.now node) }
{
    match best[node as usize] {
        Some(found) => found.value,
        None => 0,
    }
}
