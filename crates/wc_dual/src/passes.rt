ghost use Rattle.std.specs.Prelude.{◌≡◌, ◌+◌, ◌<◌, ◌*ℤ◌, ℕ, IsTrue, All, Some, length, neg_ℤ, pos, slice_get};
ghost use Rattle.std.specs.Option.{SomeIff};
ghost use Rattle.wc_base.specs.Arithmetic.{InRange};
ghost use Rattle.wc_base.specs.Sums.{chosen};
ghost use Rattle.wc_model.specs.declared.flow_system.SystemLimit.{SystemLimit};
ghost use Rattle.wc_model.specs.declared.flow_system.SystemLoop.{SystemLoop};
ghost use Rattle.wc_model.specs.declared.flow_system.SystemStep.{SystemStep};
ghost use Rattle.wc_model.specs.Flow.Certificates.{factor_of};
ghost use Rattle.wc_model.specs.Flow.Places.{IsOnce, is_listed, number_at};
ghost use Rattle.wc_model.specs.Flow.SystemWalks.{cost_at};
ghost use Rattle.wc_model.specs.Flow.Systems.{named_by};
ghost use Rattle.wc_dual.specs.Inner.Clauses.{AddsBack, PaysStep, AddsEntries, AddsEntry, AddsLimit, AddsLimits, At, PaysLimit, TakesEntries};
ghost use Rattle.wc_dual.specs.Inner.Blocks.{IsTurn};
ghost use Rattle.wc_dual.specs.Inner.Lines.{HasWideBound, HasWideFactor, IsPaid, IsStepPaid, IsWideBound, IsWideFactor, back_term, entry_term, limit_term};
ghost use Rattle.wc_dual.specs.Inner.Passes.{IsPass, IsRowTurn};
ghost use Rattle.wc_dual.specs.Inner.Sources.{AreBySource};

use crate::blocks::put;
use crate::numbers::times;
use crate::sources::steps_of;
use wc_model::{SystemLimit, SystemLoop, SystemStep};

/// Adds each loop's price to the sums of its back steps.
pub fn add_backs(loops: &[SystemLoop], v: &[i128], first: usize, sums: &mut [i128]) -> bool
    requires once { All (λ l. IsOnce l.back) loops.now }
    requires counted { length v.now ≡ length loops.now }
    ensures { IsPass ⊥ (back_term (number_at v.now)) loops.now first sums.old sums.new result }
{
    for place in 0..loops.len() {
        if !back_turn(loops, place, v, first, sums) {
            return false;
        }
    }
    true
}

fn back_turn(
    loops: &[SystemLoop],
    place: usize,
    v: &[i128],
    first: usize,
    sums: &mut [i128],
) -> bool
    requires once { All (λ l. IsOnce l.back) loops.now }
    requires counted { length v.now ≡ length loops.now }
    requires known { place < length loops.now }
    ensures { At loops.now place (AddsBack v.now place first sums.old sums.new result) }
{
    put_places(loops[place].back.items(), &v[place], first, sums)
}

// adds an amount to the sums of some places
fn put_places(places: &[u32], amount: &i128, first: usize, sums: &mut [i128]) -> bool
    requires { IsOnce places.now }
    ensures { IsTurn first (λ i. chosen (is_listed i places.now) amount.now) sums.old sums.new result }
{
    for place in places {
        if !put(*place as usize, amount, first, sums) {
            return false;
        }
    }
    true
}

/// Takes bound times each loop's price off the sums of its entry steps.
pub fn add_entries(loops: &[SystemLoop], v: &[i128], first: usize, sums: &mut [i128]) -> bool
    requires once { All (λ l. IsOnce l.entry) loops.now }
    requires counted { length v.now ≡ length loops.now }
    ensures { AddsEntries loops.now v.now first sums.old sums.new result }
{
    for place in 0..loops.len() {
        if !entry_turn(loops, place, v, first, sums) {
            return false;
        }
    }
    true
}

fn entry_turn(
    loops: &[SystemLoop],
    place: usize,
    v: &[i128],
    first: usize,
    sums: &mut [i128],
) -> bool
    requires once { All (λ l. IsOnce l.entry) loops.now }
    requires counted { length v.now ≡ length loops.now }
    requires known { place < length loops.now }
    ensures { At loops.now place (AddsEntry v.now place first sums.old sums.new result) }
{
    take_entries(&loops[place], &v[place], first, sums)
}

fn take_entries(row: &SystemLoop, price: &i128, first: usize, sums: &mut [i128]) -> bool
    requires { IsOnce row.now.entry }
    ensures { TakesEntries row.now price.now first sums.old sums.new result }
{
    let entries = row.entry.items();
    if entries.len() == 0 {
        return true;
    }
    let Some(amount) = bound_times(row, price) else {
        return false;
    };
    let less = negated(&amount);
    put_places(entries, &less, first, sums)
}

fn bound_times(row: &SystemLoop, price: &i128) -> Option<i128>
    ensures { SomeIff result (InRange (pos row.now.bound *ℤ price.now)) (pos row.now.bound *ℤ price.now) }
{
    times(&(row.bound as i128), price)
}

fn negated(number: &i128) -> i128
    requires { InRange number.now }
    ensures { result ≡ neg_ℤ number.now }
{
    -*number
}

/// Adds each limit's price to the sums of the steps that leave the nodes that it names, times the node's factor.
pub fn add_limits(
    steps: &[SystemStep],
    sorted: bool,
    limits: &[SystemLimit],
    w: &[i128],
    first: usize,
    sums: &mut [i128],
) -> bool
    requires sorted { IsTrue sorted → AreBySource steps.now }
    requires once { All (λ l. IsOnce (named_by l)) limits.now }
    requires counted { length w.now ≡ length limits.now }
    ensures { AddsLimits steps.now limits.now w.now first sums.old sums.new result }
{
    for place in 0..limits.len() {
        if !limit_turn(steps, sorted, limits, place, w, first, sums) {
            return false;
        }
    }
    true
}

fn limit_turn(
    steps: &[SystemStep],
    sorted: bool,
    limits: &[SystemLimit],
    place: usize,
    w: &[i128],
    first: usize,
    sums: &mut [i128],
) -> bool
    requires sorted { IsTrue sorted → AreBySource steps.now }
    requires once { All (λ l. IsOnce (named_by l)) limits.now }
    requires counted { length w.now ≡ length limits.now }
    requires known { place < length limits.now }
    ensures { At limits.now place (AddsLimit steps.now w.now place first sums.old sums.new result) }
{
    pay_limit(&limits[place], &w[place], steps, sorted, first, sums)
}

fn pay_limit(
    row: &SystemLimit,
    price: &i128,
    steps: &[SystemStep],
    sorted: bool,
    first: usize,
    sums: &mut [i128],
) -> bool
    requires sorted { IsTrue sorted → AreBySource steps.now }
    requires once { IsOnce (named_by row.now) }
    ensures { PaysLimit steps.now row.now price.now first sums.old sums.new result }
{
    for factor in row.factors.items() {
        if !pay_factor(factor, price, steps, sorted, first, sums) {
            return false;
        }
    }
    true
}

fn pay_factor(
    factor: &(u32, i128),
    price: &i128,
    steps: &[SystemStep],
    sorted: bool,
    first: usize,
    sums: &mut [i128],
) -> bool
    requires { IsTrue sorted → AreBySource steps.now }
    ensures { IsPaid steps.now factor.now price.now first sums.old sums.new result }
{
    let places = steps_of(steps, sorted, factor.0);
    for place in places.first..places.end {
        if !pay_place(factor, price, steps, place, first, sums) {
            return false;
        }
    }
    true
}

fn pay_place(
    factor: &(u32, i128),
    price: &i128,
    steps: &[SystemStep],
    place: usize,
    first: usize,
    sums: &mut [i128],
) -> bool
    requires { place < length steps.now }
    ensures { At steps.now place (PaysStep place factor.now price.now first sums.old sums.new result) }
{
    pay_step(factor, price, steps[place], place, first, sums)
}

fn pay_step(
    factor: &(u32, i128),
    price: &i128,
    step: SystemStep,
    place: usize,
    first: usize,
    sums: &mut [i128],
) -> bool
    ensures { IsStepPaid place step factor.now price.now first sums.old sums.new result }
{
    if step.source != factor.0 {
        return true;
    }
    let Some(amount) = times(&factor.1, price) else {
        return false;
    };
    put(place, &amount, first, sums)
}
