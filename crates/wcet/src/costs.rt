ghost use Rattle.std.specs.Prelude.{IfOk};
ghost use Rattle.wc_laws.specs.WithoutMay.{AreMustCategories};
ghost use Rattle.wc_model.specs.Cache.Costs.{AreCosts};
ghost use Rattle.wc_model.specs.Program.Graphs.{IsGraph};

use std::alloc::{AllocError, Global};
use std::thread::Threads;
use wc_category::categories;
use wc_cost::costs;
use wc_lines::lines;
use wc_model::{Category, Costs, Graph, Hardware};
use wc_mustmay::must;

/// What each step of a graph costs at most on a hardware.
pub fn costs_of<R: Threads + Sync>(
    rt: &R,
    alloc: Global,
    graph: &Graph,
    hardware: &Hardware,
) -> Result<Costs, AllocError>
    requires { IsGraph graph.now }
    ensures { IfOk result (AreCosts graph.now hardware.now) }
{
    let known = known_categories(rt, alloc, graph, hardware)?;
    costs(alloc, graph, known.as_slice(), &hardware.cycles)
}

// What is known of the fetch at each node. One that isn't surely a hit counts as a miss, so may isn't needed.
fn known_categories<R: Threads + Sync>(
    rt: &R,
    alloc: Global,
    graph: &Graph,
    hardware: &Hardware,
) -> Result<Vec<Category>, AllocError>
    requires { IsGraph graph.now }
    ensures { IfOk result (λ v. AreMustCategories graph.now hardware.now.cache v.items) }
{
    let cache = hardware.cache.as_ref();
    let map = lines(alloc, graph, cache)?;
    let must = must(rt, alloc, graph, &map, cache)?;
    let nodes = graph.nodes.items().len() as u32;
    categories(alloc, nodes, &must, &must)
}
