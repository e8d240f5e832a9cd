ghost use Rattle.std.specs.Prelude.{◌≡◌, ◌<◌, IfOk, map, length};
ghost use Rattle.wc_base.specs.Troubles.{IfFault};
ghost use Rattle.wc_model.specs.Flow.Bounds.{AreBounds, IsBoundsFault};
ghost use Rattle.wc_bounds.specs.Heads.{HavePlaces};
ghost use Rattle.wc_bounds.specs.Inner.Stated.{IsStated};
ghost use Rattle.wc_bounds.specs.Inner.Tallies.{lesser_at, IsCounted, IsNodeOf, IsTally};

use crate::stated::{Stated, stated_bounds};
use std::alloc::{AllocError, Global};
use wc_base::{Addr, Fault, Trouble};
use wc_model::{Bounds, Fact, Facts, Graph, Nest, Node, Table};

// The bounds of the heads so far, and the least address of one that has none.
#[derive(Drop)]
pub struct Tally {
    pub of: Vec<u32>,
    pub least: Option<Addr>,
}

/// The bound of each loop of the nest, as back steps for one entry; or the fault of a loop for which no bound is stated,
/// at the least address.
pub fn bounds(alloc: Global, graph: &Graph, nest: &Nest, facts: &Facts) -> Result<Bounds, Trouble>
    requires { HavePlaces graph.now nest.now }
    ensures bounds { IfOk result (λ b. AreBounds graph.now nest.now (map (λ f. f.1) facts.now) b.of) }
    ensures fault { IfFault result (IsBoundsFault graph.now nest.now (map (λ f. f.1) facts.now)) }
{
    match tally_heads(alloc, graph, nest, facts.items()) {
        Ok(tally) => match tally.least {
            None => Ok(Bounds {
                of: Table::new(tally.of),
            }),
            Some(at) => Err(Trouble::Fault(Fault::Unbounded(at))),
        },
        Err(error) => Err(Trouble::Memory(error)),
    }
}

fn tally_heads(
    alloc: Global,
    graph: &Graph,
    nest: &Nest,
    facts: &[(u64, Fact)],
) -> Result<Tally, AllocError>
    requires { HavePlaces graph.now nest.now }
    ensures { IfOk result (IsTally graph.now nest.now (map (λ f. f.1) facts.now) (length nest.now.heads)) }
{
    let stated = stated_bounds(alloc, facts)?;
    let heads = nest.heads.items();
    let mut tally = Tally {
        of: Vec::with_capacity(alloc, heads.len())?,
        least: None,
    };
    for index in 0..heads.len() {
        tally.count(graph, nest, &stated, facts, index)?;
    }
    Ok(tally)
}

impl Tally {
    // The head at a place is counted.
    fn count(
        &mut self,
        graph: &Graph,
        nest: &Nest,
        stated: &Stated,
        facts: &[(u64, Fact)],
        index: usize,
    ) -> Result<(), AllocError>
        requires places { HavePlaces graph.now nest.now }
        requires stated { IsStated facts.now (length facts.now) stated.now }
        requires inside { index < length nest.now.heads }
        ensures { IfOk result (λ _. IsCounted graph.now nest.now facts.now index self.old self.new) }
    {
        let node = head_node(graph, nest, index);
        match stated.best(facts, graph.contexts.items(), &node) {
            Some(best) => self.of.push(best.bound)?,
            None => self.least = Some(lesser(self.least, node.pc)),
        }
        Ok(())
    }
}

// The node of the head at a place.
fn head_node(graph: &Graph, nest: &Nest, index: usize) -> Node
    requires places { HavePlaces graph.now nest.now }
    requires inside { index < length nest.now.heads }
    ensures { IsNodeOf graph.now nest.now index result }
{
    let head = nest.heads.items()[index];
    graph.nodes.items()[head.node as usize]
}

fn lesser(least: Option<Addr>, at: Addr) -> Addr
    ensures { result ≡ lesser_at least at }
{
    match least {
        Some(before) if before < at => before,
        _ => at,
    }
}
