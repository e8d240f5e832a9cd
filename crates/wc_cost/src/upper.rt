ghost use Rattle.std.specs.Prelude.{◌≡◌, ◌<◌, All, IfOk, length, map, slice_index_or};
ghost use Rattle.wc_model.specs.Cache.Costs.{fetch_upper, upper, upper_costs};

use crate::base_cycles;
use std::alloc::{AllocError, Global};
use wc_model::{Category, Costs, Cycles, Graph, Step, Table};

/// The upper cost of each step.
pub fn costs(
    alloc: Global,
    graph: &Graph,
    categories: &[Category],
    cycles: &Cycles,
) -> Result<Costs, AllocError>
    requires sources { All (λ s. s.source < length graph.now.nodes) graph.now.steps }
    requires count { length categories.now ≡ length graph.now.nodes }
    ensures { IfOk result (λ costs. costs.of ≡ upper_costs graph.now categories.now cycles.now) }
{
    let mut of = Vec::with_capacity(alloc, graph.steps.items().len())?;
    for step in graph.steps.items() {
        of.push(upper(graph, categories, cycles, step))?;
    }
    Ok(Costs { of: Table::new(of) })
}

fn upper(graph: &Graph, categories: &[Category], cycles: &Cycles, step: &Step) -> u64
    requires source { step.now.source < length graph.now.nodes }
    requires count { length categories.now ≡ length graph.now.nodes }
    ensures { result ≡ upper graph.now categories.now cycles.now step.now }
{
    let fetch = fetch_upper(cycles, categories[step.source as usize]);
    base_cycles(graph, cycles, step) + fetch as u64
}

fn fetch_upper(cycles: &Cycles, category: Category) -> u16
    ensures { result ≡ fetch_upper cycles.now category }
{
    match category {
        Category::Hit => cycles.hit,
        Category::Miss | Category::Unclassified => cycles.miss,
        Category::NoCache => 0,
    }
}
