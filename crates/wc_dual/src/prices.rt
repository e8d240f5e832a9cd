ghost use Rattle.std.specs.Prelude.{◌≡◌, ◌+◌, ◌<◌, ◌≤◌, ◌≤ℤ◌, ℕ, ℤ, IsTrue, MatchBool, All, IfSome, length};
ghost use Rattle.wc_model.specs.Flow.Certificates.{scaled};
ghost use Rattle.wc_model.specs.Flow.Places.{number_at};
ghost use Rattle.wc_model.specs.Flow.Systems.{IsSystem};
ghost use Rattle.wc_dual.specs.Inner.Clauses.{AreBlockLines, ChecksLines, MeetsCosts, OpensLines};
ghost use Rattle.wc_dual.specs.Checks.{IsChecked};
ghost use Rattle.wc_dual.specs.Wide.{IsOut, IsWidePrice};
ghost use Rattle.wc_dual.specs.Inner.Lines.{AreLines, AreMet, ArePriced, AreStarts, Fit, HasWideCost, HasWideStart, listed, start_of};
ghost use Rattle.wc_dual.specs.Inner.Parts.{IsExact};
ghost use Rattle.wc_dual.specs.Inner.Sources.{AreBySource};

use crate::checks::Check;
use crate::loops::is_most;
use crate::numbers::{less, times};
use crate::passes::{add_backs, add_entries, add_limits};
use crate::sources::are_by_source;
use wc_model::{System, SystemStep};

/// Prices as lists: a potential per node, a price per loop and a price per limit.
#[derive(Clone, Copy)]
pub struct PriceLists<'a> {
    pub u: &'a [i128],
    pub v: &'a [i128],
    pub w: &'a [i128],
}

/// Whether each step is worth its cost times `scale`, a block of steps at a time.
pub fn check_prices(system: &System, prices: &PriceLists, scale: &i128, room: &mut [i128]) -> Check
    requires system { IsSystem system.now }
    requires fit { Fit system.now prices.now }
    requires room { 0 < length room.old }
    ensures { ChecksLines system.now prices.now scale.now 0 (length system.now.steps) result }
{
    let steps = system.steps.items();
    let sorted = are_by_source(steps);
    let mut first = 0;
    while first < steps.len() {
        let count = room.len().min(steps.len() - first);
        match check_lines(system, prices, sorted, scale, first, &mut room[..count]) {
            Check::Yes => {}
            other => return other,
        }
        first += count;
    }
    Check::Yes
}

// the steps of one block
fn check_lines(
    system: &System,
    prices: &PriceLists,
    sorted: bool,
    scale: &i128,
    first: usize,
    sums: &mut [i128],
) -> Check
    requires system { IsSystem system.now }
    requires fit { Fit system.now prices.now }
    requires sorted { IsTrue sorted → AreBySource system.now.steps }
    requires inside { first + length sums.old ≤ length system.now.steps }
    ensures { ChecksLines system.now prices.now scale.now first (first + length sums.old) result }
{
    if !lines_of(system, prices, sorted, first, sums) {
        return Check::TooWide;
    }
    are_met(system.steps.items(), scale, first, sums)
}

// what the steps of a block are worth
fn lines_of(
    system: &System,
    prices: &PriceLists,
    sorted: bool,
    first: usize,
    sums: &mut [i128],
) -> bool
    requires system { IsSystem system.now }
    requires fit { Fit system.now prices.now }
    requires sorted { IsTrue sorted → AreBySource system.now.steps }
    requires inside { first + length sums.old ≤ length system.now.steps }
    ensures { AreBlockLines system.now prices.now first sums.new result }
{
    let steps = system.steps.items();
    let loops = system.loops.items();
    if !open_lines(steps, prices.u, first, sums) {
        return false;
    }
    if !add_backs(loops, prices.v, first, sums) {
        return false;
    }
    if !add_entries(loops, prices.v, first, sums) {
        return false;
    }
    add_limits(steps, sorted, system.limits.items(), prices.w, first, sums)
}

// the potentials' part
fn open_lines(steps: &[SystemStep], u: &[i128], first: usize, sums: &mut [i128]) -> bool
    requires sources { All (λ t. t.source < length u.now) steps.now }
    requires targets { All (λ t. IfSome t.target (λ q. q < length u.now)) steps.now }
    requires inside { first + length sums.old ≤ length steps.now }
    ensures { OpensLines steps.now u.now first (length sums.old) sums.new result }
{
    for place in 0..sums.len() {
        let Some(line) = open_line(steps[first + place], u) else {
            return false;
        };
        sums[place] = line;
    }
    true
}

fn open_line(step: SystemStep, u: &[i128]) -> Option<i128>
    requires source { step.source < length u.now }
    requires target { IfSome step.target (λ q. q < length u.now) }
    ensures { IsExact (start_of (number_at u.now) step) result }
{
    match step.target {
        None => Some(u[step.source as usize]),
        Some(target) => less(&u[step.source as usize], &u[target as usize]),
    }
}

// whether the steps of a block are worth their costs
fn are_met(steps: &[SystemStep], scale: &i128, first: usize, sums: &[i128]) -> Check
    requires { first + length sums.now ≤ length steps.now }
    ensures { MeetsCosts steps.now scale.now first sums.now result }
{
    for place in 0..sums.len() {
        match is_met(steps[first + place], scale, &sums[place]) {
            Check::Yes => {}
            other => return other,
        }
    }
    Check::Yes
}

fn is_met(step: SystemStep, scale: &i128, worth: &i128) -> Check
    ensures { IsChecked (scaled scale.now step ≤ℤ worth.now) (IsOut (scaled scale.now step)) result }
{
    let Some(cost) = times(&(step.cost as i128), scale) else {
        return Check::TooWide;
    };
    if is_most(&cost, worth) {
        Check::Yes
    } else {
        Check::No
    }
}
