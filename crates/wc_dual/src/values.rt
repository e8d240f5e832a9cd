ghost use Rattle.std.specs.Prelude.{◌≡◌, ◌<◌, ◌*ℤ◌, Some, length, pos, slice_get};
ghost use Rattle.wc_model.specs.declared.flow_system.SystemLimit.{SystemLimit};
ghost use Rattle.wc_model.specs.declared.flow_system.SystemLoop.{SystemLoop};
ghost use Rattle.wc_model.specs.declared.flow_system.SystemStep.{SystemStep};
ghost use Rattle.wc_model.specs.Flow.Counts.{cycles};
ghost use Rattle.wc_model.specs.Flow.Places.{number_at};
ghost use Rattle.wc_model.specs.Flow.Systems.{IsSystem};
ghost use Rattle.wc_dual.specs.Inner.Clauses.{At, IsConstantSum, IsConstantTerm, IsPriceTerm, IsRoundSum, IsRoundTerm, IsValueSum, IsValueTerm};
ghost use Rattle.wc_dual.specs.Wide.{IsOut};
ghost use Rattle.wc_dual.specs.Inner.Lines.{Fit, listed};
ghost use Rattle.wc_dual.specs.Inner.Passes.{IsSum, IsTerm};
ghost use Rattle.wc_dual.specs.Inner.Values.{HasWideConstant, HasWideRound, HasWideValue, IsDual, IsWideRound, constant_term, round_term, value_term};

use crate::numbers::{plus, times};
use crate::prices::PriceLists;
use wc_model::{System, SystemLimit, SystemLoop, SystemStep};

/// The sum of cost times count.
pub fn value_of(steps: &[SystemStep], x: &[i128]) -> Option<i128>
    requires { length x.now ≡ length steps.now }
    ensures { IsValueSum steps.now x.now result }
{
    let mut sum = 0i128;
    for place in 0..steps.len() {
        let Some(next) = add_value(steps, place, x, &sum) else {
            return None;
        };
        sum = next;
    }
    Some(sum)
}

fn add_value(steps: &[SystemStep], place: usize, x: &[i128], sum: &i128) -> Option<i128>
    requires known { place < length steps.now }
    requires counted { length x.now ≡ length steps.now }
    ensures { At steps.now place (IsValueTerm x.now place sum.now result) }
{
    add_cost(steps[place], &x[place], sum)
}

fn add_cost(step: SystemStep, count: &i128, sum: &i128) -> Option<i128>
    ensures { IsTerm (IsOut (cycles step *ℤ count.now)) sum.now (cycles step *ℤ count.now) result }
{
    add_product(&(step.cost as i128), count, sum)
}

fn add_product(a: &i128, b: &i128, sum: &i128) -> Option<i128>
    ensures { IsTerm (IsOut (a.now *ℤ b.now)) sum.now (a.now *ℤ b.now) result }
{
    let Some(product) = times(a, b) else {
        return None;
    };
    plus(sum, &product)
}

/// The value of prices.
pub fn dual_of(system: &System, prices: &PriceLists) -> Option<i128>
    requires system { IsSystem system.now }
    requires fit { Fit system.now prices.now }
    ensures { IsDual system.now (listed prices.now) result }
{
    let loops = system.loops.items();
    let limits = system.limits.items();
    let begin = &prices.u[system.start as usize];
    let Some(sum) = with_rounds(loops, system.start, prices.v, begin) else {
        return None;
    };
    with_constants(limits, prices.w, &sum)
}

// with the prices of the loops round the start
fn with_rounds(loops: &[SystemLoop], start: u32, v: &[i128], begin: &i128) -> Option<i128>
    requires { length v.now ≡ length loops.now }
    ensures { IsRoundSum start loops.now v.now begin.now result }
{
    let mut sum = *begin;
    for place in 0..loops.len() {
        let Some(next) = add_round(loops, place, start, v, &sum) else {
            return None;
        };
        sum = next;
    }
    Some(sum)
}

fn add_round(loops: &[SystemLoop], place: usize, start: u32, v: &[i128], sum: &i128) -> Option<i128>
    requires known { place < length loops.now }
    requires counted { length v.now ≡ length loops.now }
    ensures { At loops.now place (IsRoundTerm start v.now place sum.now result) }
{
    add_price(&loops[place], start, &v[place], sum)
}

fn add_price(row: &SystemLoop, start: u32, price: &i128, sum: &i128) -> Option<i128>
    ensures { IsPriceTerm start row.now price.now sum.now result }
{
    if row.head != start {
        return Some(*sum);
    }
    add_product(&(row.bound as i128), price, sum)
}

// with the prices of the limits
fn with_constants(limits: &[SystemLimit], w: &[i128], begin: &i128) -> Option<i128>
    requires { length w.now ≡ length limits.now }
    ensures { IsConstantSum limits.now w.now begin.now result }
{
    let mut sum = *begin;
    for place in 0..limits.len() {
        let Some(next) = add_constant(limits, place, w, &sum) else {
            return None;
        };
        sum = next;
    }
    Some(sum)
}

fn add_constant(limits: &[SystemLimit], place: usize, w: &[i128], sum: &i128) -> Option<i128>
    requires known { place < length limits.now }
    requires counted { length w.now ≡ length limits.now }
    ensures { At limits.now place (IsConstantTerm w.now place sum.now result) }
{
    add_product(&limits[place].constant, &w[place], sum)
}
