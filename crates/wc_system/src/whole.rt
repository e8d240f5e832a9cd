ghost use Rattle.std.specs.Prelude.{◌≡◌, ◌<◌, ◌^◌, ◌↔◌, [], List, IfOk, IsTrue, length};
ghost use Rattle.wc_model.specs.declared.flow_system.SystemLimit.{SystemLimit};
ghost use Rattle.wc_model.specs.Flow.Ceiling.{ceiling_of};
ghost use Rattle.wc_model.specs.Flow.Systems.{IsNestShape, IsSystem, IsSystemOf};
ghost use Rattle.wc_model.specs.Program.Graphs.{IsGraph};
ghost use Rattle.wc_model.specs.Workspace.Phases.{IsTooBig};
ghost use Rattle.wc_system.specs.Answers.{Answers, AnswersSystem};
ghost use Rattle.wc_system.specs.Inner.Capped.{AreSmall, capped};
ghost use Rattle.wc_system.specs.Inner.Unlimited.{IsLimited, TellsSize, with_limits};

use crate::ceiling::{CEILING, capped_ceiling};
use crate::cells::cells;
use crate::limits::{limit_count, limits_of};
use crate::loops::loops_of;
use crate::steps::costed_steps;
use std::alloc::{AllocError, Global};
use wc_base::{Fault, Trouble};
use wc_model::{Bounds, Costs, Facts, Graph, Nest, System, SystemLimit, Table};

// the most cells that the tableau of a system with limits may have
const MOST_CELLS: u128 = 250_000;

/// The flow system of a graph and its nest: refused by the ceiling, or else, only with stated limits, by the cells of
/// its tableau.
pub fn system(
    alloc: Global,
    graph: &Graph,
    nest: &Nest,
    bounds: &Bounds,
    costs: &Costs,
    facts: &Facts,
) -> Result<System, Trouble>
    requires graph { IsGraph graph.now }
    requires nest { IsNestShape graph.now nest.now }
    requires bounds { length bounds.now.of ≡ length nest.now.heads }
    requires costs { length costs.now.of ≡ length graph.now.steps }
    ensures answer { AnswersSystem graph.now nest.now bounds.now costs.now facts.now result }
    ensures sound { IfOk result IsSystem }
{
    let system = unlimited(alloc, graph, nest, bounds, costs)?;
    is_sound(graph, nest, bounds, costs, &system);
    let ceiling = system_ceiling(alloc, graph, nest, bounds, costs, &system)?;
    if ceiling == CEILING {
        return Err(Trouble::Fault(Fault::NumberLimit));
    }
    limited(alloc, graph, facts, system)
}

// the system without limits
fn unlimited(
    alloc: Global,
    graph: &Graph,
    nest: &Nest,
    bounds: &Bounds,
    costs: &Costs,
) -> Result<System, AllocError>
    requires graph { IsGraph graph.now }
    requires nest { IsNestShape graph.now nest.now }
    requires bounds { length bounds.now.of ≡ length nest.now.heads }
    requires costs { length costs.now.of ≡ length graph.now.steps }
    ensures { IfOk result (λ s. IsSystemOf graph.now nest.now bounds.now costs.now [] s) }
{
    let nodes = graph.nodes.items().len();
    let bounds = bounds.of.items();
    let steps = costed_steps(alloc, graph.steps.items(), costs.of.items())?;
    let loops = loops_of(alloc, nest, bounds, nodes, steps.as_slice())?;
    Ok(System {
        nodes: nodes as u32,
        steps: Table::new(steps),
        start: graph.start,
        loops: Table::new(loops),
        limits: Table::new(Vec::new(alloc)),
    })
}

// a law alone: places are in range, and each stands once in a list
fn is_sound(graph: &Graph, nest: &Nest, bounds: &Bounds, costs: &Costs, system: &System)
    requires graph { IsGraph graph.now }
    requires nest { IsNestShape graph.now nest.now }
    requires bounds { length bounds.now.of ≡ length nest.now.heads }
    requires costs { length costs.now.of ≡ length graph.now.steps }
    requires system { IsSystemOf graph.now nest.now bounds.now costs.now [] system.now }
    ensures sound { IsSystem system.now }
    ensures few { length system.now.steps < 2 ^ 32 }
{
    bounds_fit(bounds.of.items());
}

// a law alone
fn bounds_fit(bounds: &[u32])
    ensures { AreSmall bounds.now }
{}

fn system_ceiling(
    alloc: Global,
    graph: &Graph,
    nest: &Nest,
    bounds: &Bounds,
    costs: &Costs,
    system: &System,
) -> Result<u128, AllocError>
    requires graph { IsGraph graph.now }
    requires nest { IsNestShape graph.now nest.now }
    requires bounds { length bounds.now.of ≡ length nest.now.heads }
    requires costs { length costs.now.of ≡ length graph.now.steps }
    requires system { IsSystemOf graph.now nest.now bounds.now costs.now [] system.now }
    ensures { IfOk result (λ n. n ≡ capped (ceiling_of nest.now system.now)) }
{
    capped_ceiling(alloc, nest, bounds.of.items(), system.steps.items())
}

// the system with the limits that the facts state
fn limited(alloc: Global, graph: &Graph, facts: &Facts, system: System) -> Result<System, Trouble>
    requires graph { IsGraph graph.now }
    requires system { IsSystem system }
    requires steps { length system.steps < 2 ^ 32 }
    ensures { Answers (IsLimited graph.now facts.now system) result }
{
    let count = limit_count(facts.items());
    if is_too_big(alloc, &system, count)? {
        return Err(Trouble::Fault(Fault::SystemLimit));
    }
    let limits = limits_of(alloc, graph, facts.items())?;
    Ok(add_limits(system, limits))
}

fn is_too_big(alloc: Global, system: &System, limits: usize) -> Result<bool, AllocError>
    requires system { IsSystem system.now }
    requires steps { length system.now.steps < 2 ^ 32 }
    ensures { IfOk result (TellsSize system.now limits) }
{
    if limits == 0 {
        return Ok(false);
    }
    let cells = cells(alloc, system, limits)?;
    Ok(cells > MOST_CELLS)
}

fn add_limits(system: System, limits: Vec<SystemLimit>) -> System
    ensures { result ≡ with_limits system limits.items }
{
    System {
        nodes: system.nodes,
        steps: system.steps,
        start: system.start,
        loops: system.loops,
        limits: Table::new(limits),
    }
}
