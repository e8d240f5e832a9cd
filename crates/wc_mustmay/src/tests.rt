ghost use Rattle.std.specs.Prelude.{◌≡◌, ◌<◌, ◌++◌, IfOk, IfSome, IsTrue, length};
ghost use Rattle.wc_model.specs.Cache.Ranges.{are_cache_numbers};
ghost use Rattle.wc_model.specs.Program.Graphs.{IsGraph};
ghost use Rattle.wc_mustmay.specs.Inner.LineGraphs.{AreOfOneStack, IsLine, steps_at};

use crate::{may, must};
use std::alloc::{AllocError, Global};
use std::test::Fail;
use std::thread::Threads;
use wc_lines::lines;
use wc_model::{Cache, Class, Context, Control, Flags, Graph, Insn, Node, StartState, Step, Table};

// Nodes at these addresses, all of the empty stack.
fn nodes_of(alloc: Global, pcs: &[u32]) -> Result<Vec<Node>, AllocError>
    ensures { IfOk result (λ v. AreOfOneStack (length pcs.now) v.items) }
{
    let insn = Insn {
        class: Class::Alu,
        moved: 0,
        control: Control::Next,
        always: true,
    };
    let mut nodes = Vec::new(alloc);
    for pc in pcs {
        nodes.push(Node {
            context: 0,
            pc: *pc,
            insn,
        })?;
    }
    Ok(nodes)
}

// Where a node leads beside the next one.
fn jump_of(jumps: &[(u32, u32)], node: u32, nodes: u32) -> Option<u32>
    ensures { IfSome result (λ target. target < nodes) }
{
    for (source, target) in jumps {
        if *source == node && *target < nodes {
            return Some(*target);
        }
    }
    None
}

fn add_steps(
    steps: &mut Vec<Step>,
    source: u32,
    jump: Option<u32>,
    nodes: u32,
) -> Result<(), AllocError>
    requires { source < nodes }
    ensures { IfOk result (λ _. steps.new.items ≡ steps.old.items ++ steps_at nodes source jump) }
{
    if let Some(target) = jump {
        steps.push(Step {
            source,
            target: Some(target),
            taken: true,
        })?;
    }
    let next = if source + 1 < nodes {
        Some(source + 1)
    } else {
        None
    };
    steps.push(Step {
        source,
        target: next,
        taken: false,
    })?;
    Ok(())
}

fn steps_of(alloc: Global, nodes: u32, jumps: &[(u32, u32)]) -> Result<Vec<Step>, AllocError>
    ensures { IfOk result (λ v. IsLine nodes nodes v.items) }
{
    let mut steps = Vec::new(alloc);
    for source in 0..nodes {
        add_steps(&mut steps, source, jump_of(jumps, source, nodes), nodes)?;
    }
    Ok(steps)
}

// One node after the other, from the first to the exit, where some have a further step. At most 100.
fn graph_of(alloc: Global, pcs: &[u32], jumps: &[(u32, u32)]) -> Result<Option<Graph>, AllocError>
    ensures { IfOk result (λ graph. IfSome graph IsGraph) }
{
    if pcs.is_empty() || pcs.len() > 100 {
        return Ok(None);
    }
    let mut contexts = Vec::new(alloc);
    contexts.push(Context {
        parent: None,
        returns: 0,
        callee: 0,
    })?;
    let steps = steps_of(alloc, pcs.len() as u32, jumps)?;
    Ok(Some(Graph {
        contexts: Table::new(contexts),
        nodes: Table::new(nodes_of(alloc, pcs)?),
        steps: Table::new(steps),
        start: 0,
    }))
}

fn cache(sets: u16, ways: u8, line: u8, start: StartState) -> Cache
    requires { IsTrue (are_cache_numbers sets ways line) }
{
    Cache {
        sets,
        ways,
        line,
        start,
    }
}

fn add_digits(text: &mut String, flags: &Flags) -> Result<(), AllocError> {
    for flag in flags.yes.items() {
        text.push(if *flag { '1' } else { '0' })?;
    }
    Ok(())
}

// Per node a digit, whether its line is in must; and after a blank, whether it is in may.
fn digits<R: Threads + Sync>(
    rt: &R,
    alloc: Global,
    pcs: &[u32],
    jumps: &[(u32, u32)],
    cache: Option<&Cache>,
) -> Result<String, AllocError> {
    let mut text = String::new(alloc);
    if let Some(graph) = graph_of(alloc, pcs, jumps)? {
        let map = lines(alloc, &graph, cache)?;
        add_digits(&mut text, &must(rt, alloc, &graph, &map, cache)?)?;
        text.push(' ')?;
        add_digits(&mut text, &may(rt, alloc, &graph, &map, cache)?)?;
    }
    Ok(text)
}

#[test]
fn small_programs(rt: HostRuntime) -> Result<(), Fail> {
    let alloc = rt.alloc();
    // a loop on one line
    let (pcs, jumps) = ([0x8000, 0x8004, 0x8008, 0x800C], [(2, 1)]);
    let any = cache(1, 2, 16, StartState::Any);
    assert_eq!(rt;
        digits(&rt, alloc, &pcs, &jumps, Some(&any))?.as_str(),
        "0111 1111"
    );
    let empty = cache(1, 2, 16, StartState::Empty);
    assert_eq!(rt;
        digits(&rt, alloc, &pcs, &jumps, Some(&empty))?.as_str(),
        "0111 0111"
    );
    assert_eq!(rt; digits(&rt, alloc, &pcs, &jumps, None)?.as_str(), " ");
    assert_eq!(rt;
        digits(&rt, alloc, &[0x8000, 0x8004], &[], Some(&any))?.as_str(),
        "01 11"
    );
    // a line that is fetched on one branch only
    let pcs = [0x8000, 0x8010, 0x8010, 0x8014];
    assert_eq!(rt;
        digits(&rt, alloc, &pcs, &[(0, 2)], Some(&empty))?.as_str(),
        "0001 0011"
    );
    // a switch past a call of a loop on another line, which the last node shares
    let pcs = [
        0x8000, 0x8004, 0x8008, 0x800C, 0x801C, 0x802C, 0x8030, 0x8034, 0x8038, 0x8020, 0x8024,
    ];
    let wide = cache(128, 2, 32, StartState::Empty);
    assert_eq!(rt;
        digits(&rt, alloc, &pcs, &[(3, 10), (7, 6)], Some(&wide))?.as_str(),
        "01111011110 01111011111"
    );
    Ok(())
}

#[test]
fn ways_and_sets(rt: HostRuntime) -> Result<(), Fail> {
    let alloc = rt.alloc();
    let one = cache(1, 1, 16, StartState::Empty);
    let pcs = [0x8000, 0x8004, 0x8010, 0x8000];
    assert_eq!(rt;
        digits(&rt, alloc, &pcs, &[], Some(&one))?.as_str(),
        "0100 0100"
    );
    let two = cache(1, 2, 16, StartState::Empty);
    let pcs = [0x8000, 0x8010, 0x8000, 0x8020, 0x8000, 0x8010];
    assert_eq!(rt;
        digits(&rt, alloc, &pcs, &[], Some(&two))?.as_str(),
        "001010 001010"
    );
    // a loop that fills the cache, and one that is larger
    let eight = cache(1, 8, 16, StartState::Empty);
    let pcs = [0x00, 0x10, 0x20, 0x30, 0x40, 0x50, 0x60, 0x70];
    assert_eq!(rt;
        digits(&rt, alloc, &pcs, &[(7, 0)], Some(&eight))?.as_str(),
        "00000000 11111111"
    );
    let pcs = [0x00, 0x10, 0x20, 0x30, 0x40, 0x50, 0x60, 0x70, 0x80];
    assert_eq!(rt;
        digits(&rt, alloc, &pcs, &[(8, 0)], Some(&eight))?.as_str(),
        "000000000 000000000"
    );
    // three sets of 512, the first with two lines
    let many = cache(512, 1, 16, StartState::Empty);
    let pcs = [
        0x8000, 0x8010, 0x9FF0, 0x8004, 0x8014, 0x9FF4, 0xA000, 0x8008,
    ];
    assert_eq!(rt;
        digits(&rt, alloc, &pcs, &[], Some(&many))?.as_str(),
        "00011100 00011100"
    );
    Ok(())
}
