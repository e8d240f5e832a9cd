ghost use Rattle.std.specs.Prelude.{◌≡◌, ℕ, ◌<◌, IfOk, length};
ghost use Rattle.wc_fix.specs.Solved.{FitIn, IsSolutionOf, IsSolved};
ghost use Rattle.wc_model.specs.Flow.Ends.{step_ends};
ghost use Rattle.wc_model.specs.Flow.Walks.{AreSteps};
ghost use Rattle.wc_model.specs.Program.Graphs.{IsGraph, LeadsIn};
ghost use Rattle.wc_model.specs.Program.Reaching.{Reaches};

use crate::Lattice;
use crate::fixing::Fixing;
use std::alloc::{AllocError, Global};
use wc_model::walks::{starts, steps_from};
use wc_model::{Graph, Step};

/// The most precise solution from the state `first` at the start: a state for each node, before its fetch.
pub fn solve<L: Lattice>(
    alloc: Global,
    graph: &Graph,
    access: &[Option<u32>],
    first: L,
) -> Result<Vec<Option<L>>, AllocError>
    requires graph { IsGraph graph.now }
    requires count { length access.now ≡ length graph.now.nodes }
    requires lines { FitIn ⟦<L as Lattice>⟧ first access.now }
    ensures { IfOk result (λ v. IsSolutionOf ⟦<L as Lattice>⟧ graph.now access.now first v.items) }
{
    let nodes = graph.nodes.items().len() as u32;
    solve_steps(
        alloc,
        nodes,
        graph.steps.items(),
        graph.start,
        access,
        first,
    )
}

/// The same over numbered nodes and the steps between them.
pub fn solve_steps<L: Lattice>(
    alloc: Global,
    nodes: u32,
    steps: &[Step],
    start: u32,
    access: &[Option<u32>],
    first: L,
) -> Result<Vec<Option<L>>, AllocError>
    requires steps { AreSteps step_ends nodes steps.now }
    requires start { start < nodes }
    requires reached { (p : ℕ) → p < nodes → Reaches (LeadsIn steps.now) start p }
    requires count { length access.now ≡ nodes }
    requires lines { FitIn ⟦<L as Lattice>⟧ first access.now }
    ensures { IfOk result (λ v. IsSolved ⟦<L as Lattice>⟧ nodes steps.now access.now start first v.items) }
{
    let starts = starts(alloc, nodes, steps)?;
    let mut fixing = Fixing::new(alloc, nodes, start, first)?;
    while let Some(node) = fixing.waiting.next() {
        let own = steps_from(steps, &starts, node);
        fixing.visit(own, node, access[node as usize])?;
    }
    Ok(fixing.states)
}
