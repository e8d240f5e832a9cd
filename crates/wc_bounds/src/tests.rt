ghost use Rattle.std.specs.Prelude.{◌≡◌, ◌<◌, ℕ, All, IfSome, IsTrue, Some, slice_get, length};
ghost use Rattle.wc_model.specs.declared.graphs.Context.{Context as OpenCall};
ghost use Rattle.wc_bounds.specs.Heads.{HavePlaces};
ghost use Rattle.wc_bounds.specs.Inner.Best.{ArePlaced};

use crate::bounds;
use std::alloc::{AllocError, Global};
use std::test::Fail;
use wc_base::{Addr, Fault, Trouble};
use wc_model::{Class, Context, Control, Fact, Facts, Graph, Head, Insn, Nest, Node, Table};

fn have_places(graph: &Graph, nest: &Nest) -> bool
    ensures { IsTrue result → HavePlaces graph.now nest.now }
{
    if !are_nodes(graph.nodes.items().len(), nest.heads.items()) {
        return false;
    }
    if !are_placed(graph.contexts.items().len(), graph.nodes.items()) {
        return false;
    }
    come_after_parents(graph.contexts.items())
}

fn are_nodes(count: usize, heads: &[Head]) -> bool
    ensures { IsTrue result → All (λ h. h.node < count) heads.now }
{
    for head in heads {
        if count <= head.node as usize {
            return false;
        }
    }
    true
}

fn are_placed(count: usize, nodes: &[Node]) -> bool
    ensures { IsTrue result → All (λ n. n.context < count) nodes.now }
{
    for node in nodes {
        if count <= node.context as usize {
            return false;
        }
    }
    true
}

fn come_after_parents(contexts: &[Context]) -> bool
    ensures { IsTrue result → ArePlaced contexts.now }
{
    for index in 0..contexts.len() {
        if !comes_after(contexts[index].parent, index) {
            return false;
        }
    }
    true
}

fn comes_after(parent: Option<u32>, index: usize) -> bool
    ensures { IsTrue result → IfSome parent (λ j. j < index) }
{
    match parent {
        None => true,
        Some(parent) => (parent as usize) < index,
    }
}

// A loop fact: its address, its bound, and the call instructions that it names, the outer one first.
#[derive(Clone, Copy)]
struct Row {
    at: Addr,
    bound: Option<u32>,
    outer: Option<Addr>,
    inner: Option<Addr>,
}

const fn stated_for(at: Addr, bound: Option<u32>) -> Row {
    Row {
        at,
        bound,
        outer: None,
        inner: None,
    }
}

const fn stated_in(at: Addr, bound: u32, call: Addr) -> Row {
    Row {
        at,
        bound: Some(bound),
        outer: None,
        inner: Some(call),
    }
}

fn facts_of(alloc: Global, rows: &[Row]) -> Result<Facts, AllocError> {
    let mut facts = Vec::new(alloc);
    for row in rows {
        let mut within = Vec::new(alloc);
        if let Some(call) = row.outer {
            within.push(call)?;
        }
        if let Some(call) = row.inner {
            within.push(call)?;
        }
        let fact = Fact::Loop {
            at: row.at,
            bound: row.bound,
            within: Table::new(within),
        };
        facts.push((0, fact))?;
    }
    Ok(Table::new(facts))
}

const BOTTOM: Context = Context {
    parent: None,
    returns: 0,
    callee: 0x8000,
};

fn called(parent: u32, returns: Addr) -> Context {
    Context {
        parent: Some(parent),
        returns,
        callee: 0x8010,
    }
}

// The bounds of heads, each a context and an address. The function is entered from nowhere, by the call at 0x8004, by
// that at 0x8008, and from this one by that at 0x8014.
fn bounds_of(
    alloc: Global,
    heads: &[(u32, Addr)],
    rows: &[Row],
) -> Result<Option<Result<Vec<u32>, Fault>>, AllocError> {
    if heads.len() > 9 {
        return Ok(None);
    }
    let mut contexts = Vec::new(alloc);
    contexts.push(BOTTOM)?;
    contexts.push(called(0, 0x8008))?;
    contexts.push(called(0, 0x800c))?;
    contexts.push(called(2, 0x8018))?;
    let mut nodes = Vec::new(alloc);
    let mut listed = Vec::new(alloc);
    for (place, (context, pc)) in heads.iter().enumerate() {
        nodes.push(Node {
            context: *context,
            pc: *pc,
            insn: Insn {
                class: Class::Alu,
                moved: 0,
                control: Control::Next,
                always: true,
            },
        })?;
        listed.push(Head {
            node: place as u32,
            parent: None,
        })?;
    }
    let graph = Graph {
        contexts: Table::new(contexts),
        nodes: Table::new(nodes),
        steps: Table::new(Vec::new(alloc)),
        start: 0,
    };
    let nest = Nest {
        heads: Table::new(listed),
        inside: Table::new(Vec::new(alloc)),
        back: Table::new(Vec::new(alloc)),
    };
    let facts = facts_of(alloc, rows)?;
    if !have_places(&graph, &nest) {
        return Ok(None);
    }
    match bounds(alloc, &graph, &nest, &facts) {
        Ok(bounds) => Ok(Some(Ok(bounds.of.items().to_vec(alloc)?))),
        Err(Trouble::Fault(fault)) => Ok(Some(Err(fault))),
        Err(Trouble::Memory(error)) => Err(error),
    }
}

fn are_bounds(
    alloc: Global,
    heads: &[(u32, Addr)],
    rows: &[Row],
    expected: &[u32],
) -> Result<bool, AllocError> {
    match bounds_of(alloc, heads, rows)? {
        Some(Ok(found)) => Ok(found.as_slice() == expected),
        _ => Ok(false),
    }
}

fn is_unbounded(
    alloc: Global,
    heads: &[(u32, Addr)],
    rows: &[Row],
    at: Addr,
) -> Result<bool, AllocError> {
    match bounds_of(alloc, heads, rows)? {
        Some(Err(fault)) => Ok(fault == Fault::Unbounded(at)),
        _ => Ok(false),
    }
}

// A loop at 0x8014 that is reached by both calls of its function.
const TWICE: [(u32, Addr); 2] = [(1, 0x8014), (2, 0x8014)];

#[test]
fn the_longest_call_string_holds_and_of_its_bounds_the_least(
    rt: HostRuntime,
) -> Result<(), AllocError> {
    let alloc = rt.alloc();
    let any = stated_for(0x8014, Some(9));
    assert!(rt; are_bounds(alloc, &[], &[], &[])?);
    assert!(rt; are_bounds(alloc, &TWICE, &[stated_for(0x8014, Some(9))], &[9, 9])?);
    assert!(rt;
        are_bounds(
            alloc,
            &TWICE,
            &[stated_for(0x8014, Some(9)), stated_in(0x8014, 2, 0x8004)],
            &[2, 9]
        )?
    );
    assert!(rt;
        are_bounds(
            alloc,
            &TWICE,
            &[stated_for(0x8014, Some(9)), stated_in(0x8014, 20, 0x8008)],
            &[9, 20]
        )?
    );
    let two = Row {
        at: 0x8014,
        bound: Some(2),
        outer: Some(0x8000),
        inner: Some(0x8004),
    };
    assert!(rt; are_bounds(alloc, &TWICE, &[any, two], &[9, 9])?);
    // the innermost call of two, and both
    let deep = [(3, 0x8014)];
    let both = Row {
        at: 0x8014,
        bound: Some(7),
        outer: Some(0x8008),
        inner: Some(0x8014),
    };
    assert!(rt;
        are_bounds(
            alloc,
            &deep,
            &[stated_in(0x8014, 3, 0x8014), stated_in(0x8014, 1, 0x8008)],
            &[3]
        )?
    );
    assert!(rt; are_bounds(alloc, &deep, &[both, stated_in(0x8014, 3, 0x8014)], &[7])?);
    // two bounds for one head, and a fact that states none
    assert!(rt;
        are_bounds(
            alloc,
            &[(0, 0x8004)],
            &[
                stated_for(0x8004, Some(5)),
                stated_for(0x8004, Some(3)),
                stated_for(0x8004, None),
                stated_for(0x8008, Some(1))
            ],
            &[3]
        )?
    );
    Ok(())
}

#[test]
fn a_loop_without_a_bound_is_a_fault_the_least_address_first(
    rt: HostRuntime,
) -> Result<(), AllocError> {
    let alloc = rt.alloc();
    assert!(rt; is_unbounded(alloc, &[(0, 0x8004)], &[], 0x8004)?);
    assert!(rt; is_unbounded(alloc, &[(0, 0x8004)], &[stated_for(0x8004, None)], 0x8004)?);
    assert!(rt; is_unbounded(alloc, &TWICE, &[stated_in(0x8014, 2, 0x8004)], 0x8014)?);
    let three = [(0, 0x8010), (0, 0x8004), (0, 0x8008)];
    assert!(rt; is_unbounded(alloc, &three, &[], 0x8004)?);
    assert!(rt; is_unbounded(alloc, &three, &[stated_for(0x8004, Some(1))], 0x8008)?);
    Ok(())
}
