ghost use Rattle.std.specs.Prelude.{IfOk, length};
ghost use Rattle.wc_nestsolve.specs.Inner.LastPass.{HasTurn, IsLastTable};
ghost use Rattle.wc_nestsolve.specs.Inner.Ways.{AreWays, HasRounds};

use crate::counts::{add, follow};
use crate::found::Found;
use crate::last::turn;
use crate::potentials::first_potentials;
use crate::tables::{clear, fill};
use crate::ways::Ways;
use std::alloc::{AllocError, Global};
use wc_model::{Nest, System};

/// The potentials and the counts so far.
#[derive(Drop)]
pub struct Turned {
    pub u: Vec<Option<i128>>,
    pub x: Vec<u128>,
}

// The ways to the exit, and the walk that they give from the start.
fn begin(
    alloc: Global,
    system: &System,
    nest: &Nest,
    ways: &Ways,
    extra: &[u128],
    v: &[u128],
    best: &mut Vec<Option<Found>>,
) -> Result<Turned, AllocError>
    requires ways { AreWays system.now nest.now ways.now }
    requires rounds { HasRounds system.now nest.now ways.now extra.now v.now }
    requires table { IsLastTable system.now nest.now extra.now v.now best.old.items }
    ensures table { IfOk result (λ _. IsLastTable system.now nest.now extra.now v.now best.new.items) }
    ensures turn { IfOk result (λ t. HasTurn system.now nest.now v.now 0 t.u.items t.x.items) }
{
    let starts = ways.starts.as_slice();
    let order = ways.order.as_slice();
    fill(system, nest, starts, None, order, extra, best);
    let u = first_potentials(alloc, best.as_slice())?;
    let mut x = vec![in alloc; 0u128; system.steps.items().len()]?;
    let nodes = system.nodes as usize;
    let walk = follow(alloc, system, nest, best.as_slice(), system.start, nodes)?;
    add(walk.as_slice(), 1, &mut x);
    clear(order, best);
    Ok(Turned { u, x })
}

/// The last pass: the ways to the exit, then loop by loop from the outermost inwards.
pub fn turns(
    alloc: Global,
    system: &System,
    nest: &Nest,
    ways: &Ways,
    extra: &[u128],
    v: &[u128],
    best: &mut Vec<Option<Found>>,
) -> Result<Turned, AllocError>
    requires ways { AreWays system.now nest.now ways.now }
    requires rounds { HasRounds system.now nest.now ways.now extra.now v.now }
    requires table { IsLastTable system.now nest.now extra.now v.now best.old.items }
    ensures { IfOk result (λ t. HasTurn system.now nest.now v.now (length system.now.loops) t.u.items t.x.items) }
{
    let mut turned = begin(alloc, system, nest, ways, extra, v, best)?;
    for place in 0..system.loops.items().len() {
        let Turned { u, x } = &mut turned;
        turn(alloc, system, nest, ways, place, extra, v, best, u, x)?;
    }
    Ok(turned)
}
