ghost use Rattle.std.specs.Prelude.{◌≡◌, ◌+◌, ◌<◌, ◌≤◌, ℕ, All, IfOk, IfSome, IsTrue, IsFalse, None, Some, false, length, replicate, slice_index_or, slice_set, true, if◌then◌else◌};
ghost use Rattle.wc_model.specs.Program.Graphs.{IsGraph};
ghost use Rattle.wc_nest.specs.Inner.Checks.{AreJoined, StayJoined, AreEnding, AreOrdered, IsAfter, IsEnding, IsKnown};

use crate::marking::new_list;
use crate::nest;
use std::alloc::{AllocError, Global};
use std::test::Fail;
use wc_base::{Fault, Trouble};
use wc_model::{Class, Context, Control, Graph, Insn, Nest, Node, Step, Table};

// Whether each node lies on a walk from the start to the exit, and all places are in range and in order.
fn is_graph(alloc: Global, graph: &Graph) -> Result<bool, AllocError>
    ensures { IfOk result (λ yes. yes ≡ true → IsGraph graph.now) }
{
    let nodes = graph.nodes.items();
    let steps = graph.steps.items();
    if nodes.len() > 100000 || steps.len() > 100000 || nodes.len() <= graph.start as usize {
        return Ok(false);
    }
    if !are_placed(graph.contexts.items(), nodes) {
        return Ok(false);
    }
    if !are_roots(graph.contexts.items()) {
        return Ok(false);
    }
    if !are_ordered(nodes.len(), steps) {
        return Ok(false);
    }
    let joined = joined_from(alloc, nodes.len(), steps, graph.start)?;
    if !all_true(&joined) {
        return Ok(false);
    }
    let ending = ending_nodes(alloc, nodes.len(), steps)?;
    Ok(all_true(&ending))
}

fn are_placed(contexts: &[Context], nodes: &[Node]) -> bool
    ensures { IsTrue result → All (λ n. n.context < length contexts.now) nodes.now }
{
    for node in nodes {
        if contexts.len() <= node.context as usize {
            return false;
        }
    }
    true
}

fn are_roots(contexts: &[Context]) -> bool
    ensures { IsTrue result → All (λ c. c.parent ≡ None) contexts.now }
{
    for context in contexts {
        if context.parent.is_some() {
            return false;
        }
    }
    true
}

fn are_ordered(nodes: usize, steps: &[Step]) -> bool
    ensures { IsTrue result → AreOrdered nodes steps.now (length steps.now) }
{
    for index in 0..steps.len() {
        if !is_known(nodes, steps[index]) {
            return false;
        }
        if !is_after(steps, index) {
            return false;
        }
    }
    true
}

fn is_known(nodes: usize, step: Step) -> bool
    ensures { IsTrue result → IsKnown nodes step }
{
    if nodes <= step.source as usize {
        return false;
    }
    match step.target {
        None => true,
        Some(node) => (node as usize) < nodes,
    }
}

// Whether a step leaves no node before that of the step before.
fn is_after(steps: &[Step], index: usize) -> bool
    requires { index < length steps.now }
    ensures { IsTrue result → IsAfter steps.now index }
{
    if index == 0 {
        return true;
    }
    steps[index - 1].source <= steps[index].source
}

// Per node whether steps join it to the start.
fn joined_from(
    alloc: Global,
    nodes: usize,
    steps: &[Step],
    start: u32,
) -> Result<Vec<bool>, AllocError>
    requires steps { AreOrdered nodes steps.now (length steps.now) }
    requires start { start < nodes }
    ensures { IfOk result (λ v. (length v.items ≡ nodes) × AreJoined steps.now start v.items) }
{
    let mut joined = new_list(alloc, nodes, false)?;
    set(&mut joined, start);
    for _round in 0..nodes {
        spread(nodes, steps, &mut joined);
    }
    Ok(joined)
}

fn set(flags: &mut Vec<bool>, node: u32)
    requires { node < length flags.old.items }
    ensures { flags.new.items ≡ slice_set flags.old.items node true }
{
    flags[node as usize] = true;
}

fn spread(nodes: usize, steps: &[Step], joined: &mut Vec<bool>)
    requires steps { AreOrdered nodes steps.now (length steps.now) }
    requires count { length joined.old.items ≡ nodes }
    ensures count { length joined.new.items ≡ nodes }
    ensures joined { StayJoined steps.now joined.old.items joined.new.items }
{
    for index in 0..steps.len() {
        join_one(nodes, steps, index, joined);
    }
}

fn join_one(nodes: usize, steps: &[Step], index: usize, joined: &mut Vec<bool>)
    requires steps { AreOrdered nodes steps.now (length steps.now) }
    requires inside { index < length steps.now }
    requires count { length joined.old.items ≡ nodes }
    ensures count { length joined.new.items ≡ nodes }
    ensures joined { StayJoined steps.now joined.old.items joined.new.items }
{
    let step = steps[index];
    if let Some(target) = step.target {
        if is_set(joined, step.source) {
            set(joined, target);
        }
    }
}

fn is_set(flags: &[bool], node: u32) -> bool
    ensures { result ≡ slice_index_or flags.now node false }
{
    flags.get(node as usize).copied().unwrap_or(false)
}

// Per node whether a walk leads from it to the exit.
fn ending_nodes(alloc: Global, nodes: usize, steps: &[Step]) -> Result<Vec<bool>, AllocError>
    requires { AreOrdered nodes steps.now (length steps.now) }
    ensures { IfOk result (λ v. (length v.items ≡ nodes) × AreEnding steps.now v.items) }
{
    let mut ending = new_list(alloc, nodes, false)?;
    for _round in 0..nodes {
        gather(nodes, steps, &mut ending);
    }
    Ok(ending)
}

fn gather(nodes: usize, steps: &[Step], ending: &mut Vec<bool>)
    requires steps { AreOrdered nodes steps.now (length steps.now) }
    requires count { length ending.old.items ≡ nodes }
    ensures count { length ending.new.items ≡ nodes }
    ensures ending { AreEnding steps.now ending.old.items → AreEnding steps.now ending.new.items }
{
    for index in 0..steps.len() {
        end_one(nodes, steps, index, ending);
    }
}

fn end_one(nodes: usize, steps: &[Step], index: usize, ending: &mut Vec<bool>)
    requires steps { AreOrdered nodes steps.now (length steps.now) }
    requires inside { index < length steps.now }
    requires count { length ending.old.items ≡ nodes }
    ensures count { length ending.new.items ≡ nodes }
    ensures ending { AreEnding steps.now ending.old.items → AreEnding steps.now ending.new.items }
{
    let step = steps[index];
    if is_ending(step.target, ending) {
        set(ending, step.source);
    }
}

fn is_ending(target: Option<u32>, ending: &[bool]) -> bool
    ensures { IsTrue result → IsEnding ending.now target }
{
    match target {
        None => true,
        Some(node) => is_set(ending, node),
    }
}

fn all_true(flags: &[bool]) -> bool
    ensures { IsTrue result → All (λ b. b ≡ true) flags.now }
{
    for flag in flags {
        if !*flag {
            return false;
        }
    }
    true
}

// A graph of nodes at the addresses from 0x8000 on, and its nest; nothing where it isn't a graph.
fn nest_of(
    alloc: Global,
    count: u32,
    start: u32,
    steps: &[(u32, Option<u32>)],
) -> Result<Option<Result<Nest, Trouble>>, AllocError> {
    let mut contexts = Vec::new(alloc);
    contexts.push(Context {
        parent: None,
        returns: 0,
        callee: 0x8000,
    })?;
    let mut nodes = Vec::new(alloc);
    for node in 0..count {
        nodes.push(Node {
            context: 0,
            pc: 0x8000u32.wrapping_add(node.wrapping_mul(4)),
            insn: Insn {
                class: Class::Alu,
                moved: 0,
                control: Control::Next,
                always: true,
            },
        })?;
    }
    let mut numbered = Vec::new(alloc);
    for (source, target) in steps {
        numbered.push(Step {
            source: *source,
            target: *target,
            taken: false,
        })?;
    }
    let graph = Graph {
        contexts: Table::new(contexts),
        nodes: Table::new(nodes),
        steps: Table::new(numbered),
        start,
    };
    if !is_graph(alloc, &graph)? {
        return Ok(None);
    }
    Ok(Some(nest(alloc, &graph)))
}

// Whether the nest has these heads, as nodes and places of parents, these loops per node and these back steps.
fn is_nest(
    alloc: Global,
    count: u32,
    steps: &[(u32, Option<u32>)],
    heads: &[(u32, Option<u32>)],
    inside: &[Option<u32>],
    back: &[bool],
) -> Result<bool, AllocError> {
    match nest_of(alloc, count, 0, steps)? {
        Some(Ok(nest)) => {
            let mut found = Vec::new(alloc);
            for head in nest.heads.items() {
                found.push((head.node, head.parent))?;
            }
            Ok(
                found.as_slice() == heads
                    && nest.inside.items() == inside
                    && nest.back.items() == back,
            )
        }
        _ => Ok(false),
    }
}

fn fault(
    alloc: Global,
    count: u32,
    steps: &[(u32, Option<u32>)],
) -> Result<Option<Fault>, AllocError> {
    match nest_of(alloc, count, 0, steps)? {
        Some(Err(Trouble::Fault(fault))) => Ok(Some(fault)),
        _ => Ok(None),
    }
}

const OUT: Option<u32> = None;

#[test]
fn loops(rt: HostRuntime) -> Result<(), AllocError> {
    let alloc = rt.alloc();
    // no loop
    let line = [(0, Some(1)), (1, OUT)];
    assert!(rt; is_nest(alloc, 2, &line, &[], &[None, None], &[false, false])?);
    // a loop that counts down
    let countdown = [
        (0, Some(1)),
        (1, Some(2)),
        (2, Some(1)),
        (2, Some(3)),
        (3, OUT),
    ];
    assert!(rt;
        is_nest(
            alloc,
            4,
            &countdown,
            &[(1, None)],
            &[None, Some(0), Some(0), None],
            &[false, false, true, false, false]
        )?
    );
    // the start leads to itself
    let itself = [(0, Some(0)), (0, OUT)];
    assert!(rt; is_nest(alloc, 1, &itself, &[(0, None)], &[Some(0)], &[true, false])?);
    // two ways back to one head
    let twice = [
        (0, Some(1)),
        (1, Some(2)),
        (1, Some(3)),
        (2, Some(1)),
        (3, Some(1)),
        (3, OUT),
    ];
    assert!(rt;
        is_nest(
            alloc,
            4,
            &twice,
            &[(1, None)],
            &[None, Some(0), Some(0), Some(0)],
            &[false, false, false, true, true, false]
        )?
    );
    // three steps to one head
    let entries = [
        (0, Some(1)),
        (0, Some(2)),
        (0, Some(3)),
        (1, Some(3)),
        (2, Some(3)),
        (3, Some(4)),
        (4, Some(3)),
        (4, OUT),
    ];
    assert!(rt;
        is_nest(
            alloc,
            5,
            &entries,
            &[(3, None)],
            &[None, None, None, Some(0), Some(0)],
            &[false, false, false, false, false, false, true, false]
        )?
    );
    // the loop with the least member first, though its head is greater
    let beside = [
        (0, Some(2)),
        (0, Some(4)),
        (1, Some(4)),
        (2, Some(3)),
        (3, Some(2)),
        (3, OUT),
        (4, Some(1)),
        (4, OUT),
    ];
    assert!(rt;
        is_nest(
            alloc,
            5,
            &beside,
            &[(4, None), (2, None)],
            &[None, Some(0), Some(1), Some(1), Some(0)],
            &[false, false, true, false, true, false, false, false]
        )?
    );
    Ok(())
}

// Three loops round each other, and a step from the innermost to the outermost.
#[test]
fn loops_in_loops(rt: HostRuntime) -> Result<(), AllocError> {
    let alloc = rt.alloc();
    let steps = [
        (0, Some(1)),
        (1, Some(2)),
        (2, Some(3)),
        (3, Some(4)),
        (4, Some(3)),
        (4, Some(5)),
        (4, Some(6)),
        (5, Some(2)),
        (5, Some(6)),
        (6, Some(1)),
        (6, Some(7)),
        (7, OUT),
    ];
    let heads = [(1, None), (2, Some(0)), (3, Some(1))];
    let inside = [
        None,
        Some(0),
        Some(1),
        Some(2),
        Some(2),
        Some(1),
        Some(0),
        None,
    ];
    let back = [
        false, false, false, false, true, false, false, true, false, true, false, false,
    ];
    assert!(rt; is_nest(alloc, 8, &steps, &heads, &inside, &back)?);
    Ok(())
}

#[test]
fn second_heads(rt: HostRuntime) -> Result<(), AllocError> {
    let alloc = rt.alloc();
    // a jump into a loop
    let into = [
        (0, Some(1)),
        (1, Some(3)),
        (1, Some(2)),
        (2, Some(3)),
        (3, Some(4)),
        (4, Some(2)),
        (4, Some(5)),
        (5, OUT),
    ];
    assert!(rt; fault(alloc, 6, &into)? == Some(Fault::Irreducible(0x800c)));
    // inside of a loop that is entered at its head
    let inner = [
        (0, Some(1)),
        (1, Some(2)),
        (1, Some(3)),
        (2, Some(3)),
        (3, Some(2)),
        (3, Some(4)),
        (4, Some(1)),
        (4, OUT),
    ];
    assert!(rt; fault(alloc, 5, &inner)? == Some(Fault::Irreducible(0x800c)));
    // of two such loops that with the least member, though its second head is greater
    let two = [
        (0, Some(1)),
        (0, Some(2)),
        (0, Some(3)),
        (0, Some(4)),
        (1, Some(4)),
        (2, Some(3)),
        (3, Some(2)),
        (3, OUT),
        (4, Some(1)),
        (4, OUT),
    ];
    assert!(rt; fault(alloc, 5, &two)? == Some(Fault::Irreducible(0x8010)));
    Ok(())
}
