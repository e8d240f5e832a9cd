ghost use Rattle.std.specs.Prelude.{◌≡◌, ◌<◌, ◌^◌, ◌<ℤ◌, ◌≤ℤ◌, ◌*ℤ◌, ◌+ℤ◌, [], pos};
ghost use Rattle.wc_model.specs.Flow.Ceiling.{ceiling_of};
ghost use Rattle.wc_model.specs.Flow.Certificates.{IsBound, SolutionHolds};
ghost use Rattle.wc_model.specs.Flow.Nest.{IsNest};
ghost use Rattle.wc_model.specs.Flow.Systems.{IsSystem};
ghost use Rattle.wc_model.specs.Program.Graphs.{IsGraph};
ghost use Rattle.wc_model.specs.Workspace.Phases.{IsTooBig, SolutionOf};
ghost use Rattle.wc_nestsolve.specs.Given.{IsSystemIn};
ghost use Rattle.wc_system.specs.Answers.{Answers};
ghost use Rattle.wc_works.specs.Solving.{IsSolvable};

use std::alloc::Global;
use wc_base::{Fault, Trouble};
use wc_model::{Graph, Nest, Solution, System};
use wc_nestsolve::solve as solve_nest;
use wc_simplex::{SolveFault, solve as solve_rows};

/// The solution of a system: over the nest of its graph, or by the row machine where limits are stated.
pub fn solution_of(
    alloc: Global,
    graph: &Graph,
    nest: &Nest,
    system: &System,
) -> Result<Solution, Trouble>
    requires graph { IsGraph graph.now }
    requires nest { IsNest graph.now nest.now }
    requires system { IsSystemIn graph.now nest.now system.now }
    requires sound { IsSystem system.now }
    requires below { ceiling_of nest.now system.now < 2 ^ 100 }
    requires fits { IsTooBig system.now → ⊥ }
    ensures { Answers (SolutionOf system.now) result }
{
    if system.limits.items().is_empty() {
        Ok(solve_nest(alloc, graph, nest, system)?)
    } else {
        solve_limited(alloc, system)
    }
}

fn solve_limited(alloc: Global, system: &System) -> Result<Solution, Trouble>
    requires limited { system.now.limits ≡ [] → ⊥ }
    requires solvable { IsSolvable system.now }
    ensures { Answers (SolutionOf system.now) result }
{
    match solve_rows(alloc, system) {
        Ok(solution) => Ok(solution),
        Err(SolveFault::NumberLimit) => Err(Trouble::Fault(Fault::NumberLimit)),
        Err(SolveFault::PivotLimit) => Err(Trouble::Fault(Fault::PivotLimit)),
        Err(SolveFault::NoPath(_)) => Err(Trouble::Fault(Fault::NoPath)),
        Err(SolveFault::Memory(error)) => Err(Trouble::Memory(error)),
    }
}

/// The bound: the floor of the optimum.
pub fn bound_of(system: &System, solution: &Solution) -> u128
    requires { SolutionHolds system.now solution.now }
    ensures { IsBound system.now result }
{
    floor(&solution.num, &solution.den)
}

fn floor(num: &i128, den: &i128) -> u128
    requires some { pos 0 ≤ℤ num.now }
    requires whole { pos 0 <ℤ den.now }
    ensures least { (pos result *ℤ den.now) ≤ℤ num.now }
    ensures most { num.now <ℤ ((pos result +ℤ pos 1) *ℤ den.now) }
{
    num.unsigned_abs() / den.unsigned_abs()
}
