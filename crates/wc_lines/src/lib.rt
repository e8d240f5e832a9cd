//! The cache line of each node of a graph, and the set of that line. After Ferdinand and Wilhelm 1999.
#![tactic(auto)]

ghost use Rattle.std.specs.Prelude.{◌≡◌, IfOk, IfSome, MatchOption, map, None, Some};
ghost use Rattle.wc_model.specs.Cache.Lines.{line_map, line_of, set_of};
ghost use Rattle.std.specs.Option.{option_map};

use std::alloc::{AllocError, Global};
use wc_base::Addr;
use wc_model::{Cache, Graph, LineMap, Node, Table};

#[cfg(test)]
mod tests;

/// The line and the set of each node. Both lists are empty where there is no cache.
pub fn lines(alloc: Global, graph: &Graph, cache: Option<&Cache>) -> Result<LineMap, AllocError>
    ensures { IfOk result (λ made. made ≡ line_map graph.now (option_map (λ c. c.now) cache.entry)) }
{
    let Some(cache) = cache else {
        return Ok(LineMap {
            line: Table::new(Vec::new(alloc)),
            set: Table::new(Vec::new(alloc)),
        });
    };
    let nodes = graph.nodes.items();
    Ok(LineMap {
        line: Table::new(lines_of(alloc, nodes, cache)?),
        set: Table::new(sets_of(alloc, nodes, cache)?),
    })
}

fn lines_of(alloc: Global, nodes: &[Node], cache: &Cache) -> Result<Vec<u32>, AllocError>
    ensures { IfOk result (λ v. v.items ≡ map (λ n. line_of cache.now n.pc) nodes.now) }
{
    nodes
        .iter()
        .map(|node| line_of(cache, node.pc))
        .collect(alloc)
}

fn sets_of(alloc: Global, nodes: &[Node], cache: &Cache) -> Result<Vec<u16>, AllocError>
    ensures { IfOk result (λ v. v.items ≡ map (λ n. set_of cache.now n.pc) nodes.now) }
{
    nodes
        .iter()
        .map(|node| set_of(cache, node.pc))
        .collect(alloc)
}

fn line_of(cache: &Cache, pc: Addr) -> u32
    ensures { result ≡ line_of cache.now pc }
{
    pc / cache.line as u32
}

fn set_of(cache: &Cache, pc: Addr) -> u16
    ensures { result ≡ set_of cache.now pc }
{
    (line_of(cache, pc) % cache.sets as u32) as u16
}
