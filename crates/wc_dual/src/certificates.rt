ghost use Rattle.std.specs.Prelude.{◌≡◌, ◌<◌, ◌^◌, ◌*ℤ◌, ◌<ℤ◌, IfOk, length, pos};
ghost use Rattle.wc_model.specs.Flow.Certificates.{RayHolds, SolutionHolds, dual_value, solution_prices};
ghost use Rattle.wc_model.specs.Flow.Places.{number_at};
ghost use Rattle.wc_model.specs.Flow.Systems.{IsSystem};
ghost use Rattle.wc_dual.specs.Inner.Clauses.{ChecksCounts};
ghost use Rattle.wc_dual.specs.Checks.{ChecksRay, ChecksSolution, IsChecked};
ghost use Rattle.wc_dual.specs.Wide.{IsWideCount, IsWideRay, IsWideSolution};
ghost use Rattle.wc_dual.specs.Inner.Blocks.{Tells};
ghost use Rattle.wc_dual.specs.Inner.Lines.{Fit, listed};
ghost use Rattle.wc_dual.specs.Inner.Shapes.{AreCounts, AreEqual, AreFair, AreOfRay, AreOfSolution, AreSome, IsShaped};

use crate::checks::Check;
use crate::counts::check_flow;
use crate::limits::check_limits;
use crate::loops::check_loops;
use crate::numbers::times;
use crate::prices::{PriceLists, check_prices};
use crate::values::{dual_of, value_of};
use std::alloc::{AllocError, Global};
use wc_model::{Ray, Solution, System};

// how many sums stand on the stack at a time
const BLOCK: usize = 4096;

/// Whether counts are feasible and prices hold that show that none have a greater value. It takes no memory: a large
/// system is gone through once for each 4,096 nodes and each 4,096 steps.
pub fn check(system: &System, solution: &Solution) -> Check
    requires { IsSystem system.now }
    ensures { ChecksSolution system.now solution.now result }
{
    check_in(system, solution, &mut [0i128; BLOCK])
}

/// The same with memory for all sums: a large system is gone through once.
pub fn check_at_once(
    alloc: Global,
    system: &System,
    solution: &Solution,
) -> Result<Check, AllocError>
    requires { IsSystem system.now }
    ensures { IfOk result (ChecksSolution system.now solution.now) }
{
    let count = sums_at_once(system.nodes, system.steps.items().len());
    let mut room = zeros(alloc, count)?;
    Ok(check_in(system, solution, &mut room))
}

/// Whether prices hold that show that no counts are feasible.
pub fn check_ray(system: &System, ray: &Ray) -> Check
    requires { IsSystem system.now }
    ensures { ChecksRay system.now ray.now result }
{
    let prices = prices_of_ray(ray);
    if !are_fair(system, &prices) {
        return Check::No;
    }
    match check_prices(system, &prices, &0, &mut [0i128; BLOCK]) {
        Check::Yes => {}
        other => return other,
    }
    let Some(value) = dual_of(system, &prices) else {
        return Check::TooWide;
    };
    if is_below(&value) {
        Check::Yes
    } else {
        Check::No
    }
}

fn is_below(value: &i128) -> bool
    ensures { Tells (value.now <ℤ pos 0) result }
{
    *value < 0
}

// at least one, and few enough to be numbered
fn sums_at_once(nodes: u32, steps: usize) -> usize
    ensures some { 0 < result }
    ensures small { result < 2 ^ 32 }
{
    steps.min(u32::MAX as usize).max(nodes as usize).max(1)
}

fn zeros(alloc: Global, count: usize) -> Result<Vec<i128>, AllocError>
    ensures { IfOk result (λ v. length v.items ≡ count) }
{
    let mut zeros = Vec::with_capacity(alloc, count)?;
    for _ in 0..count {
        zeros.push(0)?;
    }
    Ok(zeros)
}

fn check_in(system: &System, solution: &Solution, room: &mut [i128]) -> Check
    requires system { IsSystem system.now }
    requires room { 0 < length room.old }
    requires small { length room.old < 2 ^ 32 }
    ensures { ChecksSolution system.now solution.now result }
{
    let prices = prices_of(solution);
    if !is_shaped(system, solution) {
        return Check::No;
    }
    if !are_fair(system, &prices) {
        return Check::No;
    }
    let x = solution.x.items();
    match check_counts(system, &solution.den, x, room) {
        Check::Yes => {}
        other => return other,
    }
    match check_prices(system, &prices, &solution.scale, room) {
        Check::Yes => {}
        other => return other,
    }
    check_values(system, solution, &prices)
}

fn prices_of<'a>(solution: &'a Solution) -> PriceLists<'a>
    ensures { AreOfSolution solution.now result }
{
    PriceLists {
        u: solution.u.items(),
        v: solution.v.items(),
        w: solution.w.items(),
    }
}

fn prices_of_ray<'a>(ray: &'a Ray) -> PriceLists<'a>
    ensures { AreOfRay ray.now result }
{
    PriceLists {
        u: ray.u.items(),
        v: ray.v.items(),
        w: ray.w.items(),
    }
}

fn is_shaped(system: &System, solution: &Solution) -> bool
    ensures { Tells (IsShaped system.now solution.now) result }
{
    let x = solution.x.items();
    x.len() == system.steps.items().len()
        && are_some(x)
        && is_above(&solution.den)
        && is_above(&solution.scale)
}

fn is_above(number: &i128) -> bool
    ensures { Tells (pos 0 <ℤ number.now) result }
{
    *number > 0
}

fn are_fair(system: &System, prices: &PriceLists) -> bool
    ensures { Tells (AreFair system.now prices.now) result }
{
    prices.u.len() == system.nodes as usize
        && prices.v.len() == system.loops.items().len()
        && prices.w.len() == system.limits.items().len()
        && are_some(prices.v)
        && are_some(prices.w)
}

fn are_some(numbers: &[i128]) -> bool
    ensures { Tells (AreSome numbers.now) result }
{
    for place in 0..numbers.len() {
        if numbers[place] < 0 {
            return false;
        }
    }
    true
}

fn check_counts(system: &System, den: &i128, x: &[i128], room: &mut [i128]) -> Check
    requires system { IsSystem system.now }
    requires room { 0 < length room.old }
    requires small { length room.old < 2 ^ 32 }
    requires counted { length x.now ≡ length system.now.steps }
    ensures { ChecksCounts system.now den.now x.now result }
{
    match check_flow(system, den, x, room) {
        Check::Yes => {}
        other => return other,
    }
    match check_loops(system, den, x) {
        Check::Yes => {}
        other => return other,
    }
    check_limits(system, den, x)
}

fn check_values(system: &System, solution: &Solution, prices: &PriceLists) -> Check
    requires system { IsSystem system.now }
    requires fit { Fit system.now prices.now }
    requires prices { AreOfSolution solution.now prices.now }
    requires counted { length solution.now.x ≡ length system.now.steps }
    ensures { IsChecked (AreEqual system.now solution.now) (IsWideSolution system.now solution.now) result }
{
    let steps = system.steps.items();
    let x = solution.x.items();
    let Some(value) = value_of(steps, x) else {
        return Check::TooWide;
    };
    if !is_same(&value, &solution.num) {
        return Check::No;
    }
    let Some(dual) = dual_of(system, prices) else {
        return Check::TooWide;
    };
    let Some(left) = times(&solution.num, &solution.scale) else {
        return Check::TooWide;
    };
    let Some(right) = times(&solution.den, &dual) else {
        return Check::TooWide;
    };
    if is_same(&left, &right) {
        Check::Yes
    } else {
        Check::No
    }
}

fn is_same(a: &i128, b: &i128) -> bool
    ensures { Tells (a.now ≡ b.now) result }
{
    *a == *b
}
