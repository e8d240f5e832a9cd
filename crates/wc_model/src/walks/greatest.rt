ghost use Rattle.std.specs.Prelude.{◌≡◌, ℕ, ◌+◌, ◌<◌, ◌^◌, Option, IfSome, length, replicate, Contains, IfOk, All};
ghost use Rattle.wc_model.specs.Inner.Greatest.{AreAtMost, HasBest, IsGreatestOf, cost_through, option_max};
ghost use Rattle.wc_model.specs.Flow.Ends.{system_ends};
ghost use Rattle.wc_model.specs.Flow.Walks.{AreSteps, Joins, IsOrdered};

use crate::SystemStep;
use crate::walks::{starts, steps_from};
use std::alloc::{AllocError, Global};

/// Per node of `order` the greatest cost of a walk to the end, or `None` where no walk leads there.
pub fn greatest_costs(
    alloc: Global,
    nodes: u32,
    steps: &[SystemStep],
    order: &[u32],
) -> Result<Vec<Option<u128>>, AllocError>
    requires steps { AreSteps system_ends nodes steps.now }
    requires inside { All (λ p. p < nodes) order.now }
    requires ordered { IsOrdered (Joins system_ends steps.now) order.now }
    ensures count { IfOk result (λ v. length v.items ≡ nodes) }
    ensures best { IfOk result (λ v. (p : ℕ) → Contains order.now p → HasBest steps.now v.items p) }
{
    let starts = starts(alloc, nodes, steps)?;
    let mut best = no_costs(alloc, nodes)?;
    for node in order {
        let greatest = greatest_through(steps_from(steps, &starts, *node), &best);
        best[*node as usize] = greatest;
    }
    Ok(best)
}

fn no_costs(alloc: Global, nodes: u32) -> Result<Vec<Option<u128>>, AllocError>
    ensures { IfOk result (λ v. v.items ≡ replicate nodes Option.None) }
{
    let mut best = Vec::with_capacity(alloc, nodes as usize)?;
    for _node in 0..nodes {
        best.push(None)?;
    }
    Ok(best)
}

// The greatest cost through one of the steps.
fn greatest_through(steps: &[SystemStep], best: &[Option<u128>]) -> Option<u128>
    requires targets { All (λ s. IfSome s.target (λ q. q < length best.now)) steps.now }
    requires fits { All (λ b. IfSome b (λ n. n < 2 ^ 127)) best.now }
    ensures greatest { IsGreatestOf (cost_through best.now) steps.now result }
    ensures small { (m : ℕ) → AreAtMost m best.now → IfSome result (λ n. n < m + 2 ^ 64) }
{
    let mut greatest = None;
    for step in steps {
        greatest = greater(greatest, through(step, best));
    }
    greatest
}

fn greater(left: Option<u128>, right: Option<u128>) -> Option<u128>
    ensures { result ≡ option_max left right }
{
    match (left, right) {
        (Some(a), Some(b)) => Some(if a < b { b } else { a }),
        (Some(a), None) => Some(a),
        (None, b) => b,
    }
}

// The cost of a step and of what is ahead of it.
fn through(step: &SystemStep, best: &[Option<u128>]) -> Option<u128>
    requires target { IfSome step.now.target (λ q. q < length best.now) }
    requires fits { All (λ b. IfSome b (λ n. n < 2 ^ 127)) best.now }
    ensures cost { result ≡ cost_through best.now step.now }
    ensures small { (m : ℕ) → AreAtMost m best.now → IfSome result (λ n. n < m + 2 ^ 64) }
{
    let ahead = match step.target {
        None => 0,
        Some(target) => best[target as usize]?,
    };
    Some(step.cost as u128 + ahead)
}
