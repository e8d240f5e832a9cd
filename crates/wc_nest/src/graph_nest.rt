ghost use Rattle.std.specs.Prelude.{◌≡◌, ◌+◌, ◌<◌, ◌≤◌, ◌^◌, ℕ, IfOk, IfSome, Some, length, slice_get};
ghost use Rattle.wc_base.specs.Troubles.{IfFault};
ghost use Rattle.wc_model.specs.Flow.Nest.{IsNest, IsNestFault};
ghost use Rattle.wc_model.specs.Program.Graphs.{IsGraph};
ghost use Rattle.wc_nest.specs.Inner.Nestings.{AddsWay, AreNumbers, AreSorted, AreWays, IsFirstNesting, IsLevelAt, IsWhole};

use crate::levels::{Level, Nesting, Next};
use crate::listing::Listing;
use crate::marking::{Mark, new_list};
use crate::search::Search;
use crate::ways::Way;
use std::alloc::{AllocError, Global};
use wc_base::{Fault, Trouble};
use wc_model::{Graph, Nest, Step, Table};

// The nest, or the second head of a class.
#[derive(Drop)]
pub enum Whole {
    Nested(Nest),
    Second(u32),
}

/// The loop nest of a graph; or the fault of a loop that is entered at two nodes, at the second one.
pub fn nest(alloc: Global, graph: &Graph) -> Result<Nest, Trouble>
    requires { IsGraph graph.now }
    ensures nest { IfOk result (IsNest graph.now) }
    ensures fault { IfFault result (IsNestFault graph.now) }
{
    match find_nest(alloc, graph) {
        Ok(Whole::Nested(nest)) => Ok(nest),
        Ok(Whole::Second(node)) => {
            let nodes = graph.nodes.items();
            Err(Trouble::Fault(Fault::Irreducible(nodes[node as usize].pc)))
        }
        Err(error) => Err(Trouble::Memory(error)),
    }
}

fn find_nest(alloc: Global, graph: &Graph) -> Result<Whole, AllocError>
    requires { IsGraph graph.now }
    ensures { IfOk result (IsWhole graph.now) }
{
    let mut level = first_level(alloc, graph)?;
    let mut nesting = first_nesting(alloc, graph)?;
    while !level.ways.is_empty() {
        match nesting.step(alloc, graph, &level)? {
            Next::Inner(inner) => level = inner,
            Next::Second(node) => return Ok(Whole::Second(node)),
        }
    }
    let Nesting { listing, back, .. } = nesting;
    let Listing { heads, inside, .. } = listing;
    Ok(Whole::Nested(Nest {
        heads: Table::new(heads),
        inside: Table::new(inside),
        back: Table::new(back),
    }))
}

// The level of the whole graph.
fn first_level(alloc: Global, graph: &Graph) -> Result<Level, AllocError>
    requires { IsGraph graph.now }
    ensures { IfOk result (IsLevelAt graph.now 0) }
{
    let nodes = graph.nodes.items();
    let members = numbers(alloc, nodes.len() as u32)?;
    let ways = ways_of(alloc, graph.steps.items())?;
    Ok(Level { members, ways })
}

fn first_nesting(alloc: Global, graph: &Graph) -> Result<Nesting, AllocError>
    requires { IsGraph graph.now }
    ensures { IfOk result (IsFirstNesting graph.now) }
{
    let nodes = graph.nodes.items().len();
    let steps = graph.steps.items().len();
    Ok(Nesting {
        search: Search {
            marks: new_list(alloc, nodes, Mark::New)?,
            next: new_list(alloc, nodes, 0)?,
            stack: Vec::new(alloc),
            bounds: Vec::new(alloc),
            path: Vec::new(alloc),
            roots: Vec::new(alloc),
        },
        entered: new_list(alloc, nodes, false)?,
        listing: Listing {
            heads: Vec::new(alloc),
            inside: new_list(alloc, nodes, None)?,
            places: Vec::new(alloc),
        },
        back: new_list(alloc, steps, false)?,
    })
}

fn numbers(alloc: Global, count: u32) -> Result<Vec<u32>, AllocError>
    ensures { IfOk result (λ v. AreNumbers count v.items) }
{
    let mut members = Vec::with_capacity(alloc, count as usize)?;
    for node in 0..count {
        members.push(node)?;
    }
    Ok(members)
}

// The steps between nodes.
fn ways_of(alloc: Global, steps: &[Step]) -> Result<Vec<Way>, AllocError>
    requires { AreSorted steps.now }
    ensures { IfOk result (λ v. AreWays steps.now (length steps.now) v.items) }
{
    let mut ways = Vec::with_capacity(alloc, steps.len())?;
    for index in 0..steps.len() {
        add_way(&mut ways, steps, index)?;
    }
    Ok(ways)
}

fn add_way(ways: &mut Vec<Way>, steps: &[Step], index: usize) -> Result<(), AllocError>
    requires inside { index < length steps.now }
    requires sorted { AreSorted steps.now }
    ensures { IfOk result (λ _. AddsWay steps.now index ways.old.items ways.new.items) }
{
    let step = steps[index];
    if let Some(target) = step.target {
        ways.push(Way {
            source: step.source,
            target,
            place: index,
        })?;
    }
    Ok(())
}
