ghost use Rattle.std.specs.Prelude.{◌≡◌, ◌+◌, ◌<◌, ◌^◌, ◌-ℤ◌, ◌≤ℤ◌, neg_ℤ, pos, IfOk, length, slice_index};
ghost use Rattle.wc_nestsolve.specs.Inner.LastPass.{AddRounds, HasCounts, HasPotentials, HasTurn, IsFilledFor, IsLastTable, RaisePotentials};
ghost use Rattle.wc_nestsolve.specs.Inner.Ways.{AreWays, HasRounds};

use crate::counts::{add, entered, follow};
use crate::found::Found;
use crate::potentials::raise;
use crate::tables::{clear, fill};
use crate::ways::{Ways, class_at, loop_at};
use std::alloc::{AllocError, Global};
use wc_model::{Nest, System};

// The potential of a head, less one round.
fn less_round(at_head: &i128, round: u128) -> i128
    requires low { neg_ℤ (pos (2 ^ 125)) ≤ℤ at_head.now }
    requires high { at_head.now ≤ℤ pos (2 ^ 125) }
    requires small { round < 2 ^ 100 }
    ensures { result ≡ at_head.now -ℤ pos round }
{
    *at_head - round as i128
}

// The potentials of a loop's nodes are raised by the ways round it.
fn raise_loop(
    system: &System,
    nest: &Nest,
    ways: &Ways,
    place: usize,
    v: &[u128],
    best: &[Option<Found>],
    u: &mut Vec<Option<i128>>,
)
    requires ways { AreWays system.now nest.now ways.now }
    requires table { IsFilledFor system.now nest.now ways.now place v.now best.now }
    requires some { HasPotentials system.now nest.now v.now place u.old.items }
    ensures { RaisePotentials system.now nest.now v.now place u.old.items u.new.items }
{
    let own = loop_at(system, place);
    let class = class_at(ways, place);
    if let Some(at_head) = u[own.head as usize] {
        let from = less_round(&at_head, v[place]);
        raise(class, best, from, u);
    }
}

// The rounds of a loop are added to the counts: its bound times for each entry.
fn add_rounds(
    alloc: Global,
    system: &System,
    nest: &Nest,
    ways: &Ways,
    place: usize,
    v: &[u128],
    best: &[Option<Found>],
    x: &mut Vec<u128>,
) -> Result<(), AllocError>
    requires ways { AreWays system.now nest.now ways.now }
    requires table { IsFilledFor system.now nest.now ways.now place v.now best.now }
    requires worth { 0 < slice_index v.now place }
    requires some { HasCounts system.now nest.now v.now place x.old.items }
    ensures { IfOk result (λ _. AddRounds system.now nest.now v.now place x.old.items x.new.items) }
{
    let own = loop_at(system, place);
    let entries = entered(own, system.start, x.as_slice());
    let class = class_at(ways, place);
    let walk = follow(alloc, system, nest, best, own.head, class.len())?;
    add(walk.as_slice(), own.bound as u128 * entries, x);
    Ok(())
}

/// One loop of the last pass.
pub fn turn(
    alloc: Global,
    system: &System,
    nest: &Nest,
    ways: &Ways,
    place: usize,
    extra: &[u128],
    v: &[u128],
    best: &mut Vec<Option<Found>>,
    u: &mut Vec<Option<i128>>,
    x: &mut Vec<u128>,
) -> Result<(), AllocError>
    requires ways { AreWays system.now nest.now ways.now }
    requires place { place < length system.now.loops }
    requires rounds { HasRounds system.now nest.now ways.now extra.now v.now }
    requires table { IsLastTable system.now nest.now extra.now v.now best.old.items }
    requires some { HasTurn system.now nest.now v.now place u.old.items x.old.items }
    ensures table { IfOk result (λ _. IsLastTable system.now nest.now extra.now v.now best.new.items) }
    ensures turn { IfOk result (λ _. HasTurn system.now nest.now v.now (place + 1) u.new.items x.new.items) }
{
    let class = class_at(ways, place);
    let goal = Some(loop_at(system, place).head);
    let starts = ways.starts.as_slice();
    fill(system, nest, starts, goal, class, extra, best);
    raise_loop(system, nest, ways, place, v, best.as_slice(), u);
    if 0 < v[place] {
        add_rounds(alloc, system, nest, ways, place, v, best.as_slice(), x)?;
    }
    clear(class, best);
    Ok(())
}
