ghost use Rattle.std.specs.Prelude.{◌≡◌, ◌<◌, ◌^◌, ◌+ℤ◌, ◌≤ℤ◌, [], All, IfOk, map, neg_ℤ, pos, length, slice_index};
ghost use Rattle.wc_dual.specs.Wide.{IsWideSolution};
ghost use Rattle.wc_model.specs.Flow.Ceiling.{ceiling_of};
ghost use Rattle.wc_model.specs.Flow.Certificates.{SolutionHolds};
ghost use Rattle.wc_model.specs.Flow.Nest.{IsNest};
ghost use Rattle.wc_model.specs.Flow.Places.{number_at};
ghost use Rattle.wc_model.specs.Flow.Systems.{IsSystem};
ghost use Rattle.wc_model.specs.Program.Graphs.{IsGraph};
ghost use Rattle.wc_model.specs.Workspace.Phases.{IsWhole};
ghost use Rattle.wc_nestsolve.specs.Given.{IsSystemIn};
ghost use Rattle.wc_nestsolve.specs.Inner.Made.{IsMade, IsMakable};
ghost use Rattle.wc_nestsolve.specs.Inner.Raising.{settled};
ghost use Rattle.wc_nestsolve.specs.Inner.Solvable.{IsSolvable};

use crate::rounds::rounds;
use crate::turns::{Turned, turns};
use crate::ways::find_ways;
use std::alloc::{AllocError, Global};
use wc_model::{Graph, Nest, Solution, System, Table};

fn settle(alloc: Global, u: &[Option<i128>]) -> Result<Vec<i128>, AllocError>
    ensures { IfOk result (λ v. v.items ≡ map settled u.now) }
{
    let mut values = Vec::with_capacity(alloc, u.len())?;
    for value in u {
        values.push(value.unwrap_or(0))?;
    }
    Ok(values)
}

fn signed(alloc: Global, numbers: &[u128]) -> Result<Vec<i128>, AllocError>
    requires { All (λ n. n < 2 ^ 127) numbers.now }
    ensures { IfOk result (λ v. v.items ≡ map pos numbers.now) }
{
    let mut values = Vec::with_capacity(alloc, numbers.len())?;
    for number in numbers {
        values.push(*number as i128)?;
    }
    Ok(values)
}

// The value of the start: its potential and its surcharge.
fn value_of(u: &i128, extra: u128) -> i128
    requires low { neg_ℤ (pos (2 ^ 120)) ≤ℤ u.now }
    requires high { u.now ≤ℤ pos (2 ^ 120) }
    requires small { extra < 2 ^ 100 }
    ensures { result ≡ u.now +ℤ pos extra }
{
    *u + extra as i128
}

// The solution of potentials, counts and rounds.
fn make(
    alloc: Global,
    start: u32,
    extra: &[u128],
    v: &[u128],
    turned: &Turned,
) -> Result<Solution, AllocError>
    requires { IsMakable start extra.now v.now turned.now.u.items turned.now.x.items }
    ensures { IfOk result (IsMade start extra.now v.now turned.now.u.items turned.now.x.items) }
{
    let u = settle(alloc, turned.u.as_slice())?;
    let x = signed(alloc, turned.x.as_slice())?;
    let v = signed(alloc, v)?;
    Ok(Solution {
        num: value_of(&u[start as usize], extra[start as usize]),
        den: 1,
        x: Table::new(x),
        scale: 1,
        u: Table::new(u),
        v: Table::new(v),
        w: Table::new(Vec::new(alloc)),
    })
}

fn solve_nest(alloc: Global, nest: &Nest, system: &System) -> Result<Solution, AllocError>
    requires solvable { IsSolvable nest.now system.now }
    requires unlimited { system.now.limits ≡ [] }
    ensures holds { IfOk result (SolutionHolds system.now) }
    ensures whole { IfOk result IsWhole }
    ensures narrow { IfOk result (λ c. IsWideSolution system.now c → ⊥) }
{
    let ways = find_ways(alloc, system, nest)?;
    let nodes = system.nodes as usize;
    let mut extra = vec![in alloc; 0u128; nodes]?;
    let mut v = vec![in alloc; 0u128; system.loops.items().len()]?;
    let mut best = vec![in alloc; None; nodes]?;
    rounds(system, nest, &ways, &mut extra, &mut v, &mut best);
    let extra = extra.as_slice();
    let v = v.as_slice();
    let turned = turns(alloc, system, nest, &ways, extra, v, &mut best)?;
    make(alloc, system.start, extra, v, &turned)
}

/// Counts and prices of the same value, over the denominator and the scale 1, for the system of a graph and its nest
/// without stated limits: so the value is the optimum over fractions. Implicit path enumeration after Li and Malik
/// 1995; the prices are those of the dual linear program.
pub fn solve(
    alloc: Global,
    graph: &Graph,
    nest: &Nest,
    system: &System,
) -> Result<Solution, AllocError>
    requires graph { IsGraph graph.now }
    requires nest { IsNest graph.now nest.now }
    requires system { IsSystemIn graph.now nest.now system.now }
    requires sound { IsSystem system.now }
    requires below { ceiling_of nest.now system.now < 2 ^ 100 }
    requires unlimited { system.now.limits ≡ [] }
    ensures holds { IfOk result (SolutionHolds system.now) }
    ensures whole { IfOk result IsWhole }
    ensures narrow { IfOk result (λ c. IsWideSolution system.now c → ⊥) }
{
    solve_nest(alloc, nest, system)
}
