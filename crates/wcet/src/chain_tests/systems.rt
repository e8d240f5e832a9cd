//! The flow systems of some of the programs, worked out by hand: a line per step, per loop and per limit.
use super::programs::{
    CALLED_TWICE, LOOP, SKIPPED_HALF, SWITCH, SWITCH_CYCLES, SWITCH_FACTS, TWO_LOOPS, binary,
};
use crate::costs::costs_of;
use std::alloc::{AllocError, Global};
use std::thread::Threads;
use wc_base::Trouble;
use wc_bounds::bounds;
use wc_elf::{find, read_image};
use wc_f4::read_facts;
use wc_graph::build;
use wc_hw::read_hardware;
use wc_model::{Fact, Hardware, System, SystemLimit, SystemLoop, Table, default_hardware};
use wc_nest::nest;
use wc_system::system;

// A step: source, target, cost.
pub type StepLine = (u32, Option<u32>, u64);

// A loop: head, bound, places of its back steps and of its entries.
pub type LoopLine<'a> = (u32, u32, &'a [u32], &'a [u32]);

// A limit on one node: constant, node, factor.
pub type LimitLine = (i64, u32, i64);

// A program at 0x8000 with facts and hardware, and the flow system of `f`, which starts at the first node.
#[derive(Drop)]
pub struct Flow<'a> {
    pub name: &'a str,
    pub code: &'a [u32],
    pub facts: &'a str,
    pub hardware: &'a str,
    pub nodes: u32,
    pub steps: &'a [StepLine],
    pub loops: &'a [LoopLine<'a>],
    pub limits: &'a [LimitLine],
}

const LOOP_STEPS: [StepLine; 5] = [
    (0, Some(1), 1),
    (1, Some(2), 1),
    (2, Some(1), 1),
    (2, Some(3), 1),
    (3, None, 1),
];

// push 3; ldr 2; cmp 1; ldrls pc 2, taken 4; b 3; bl 3; nop 1; pop 5; and of `g` mov 1, subs 1, bne 1, taken 3, bx lr 3
const SWITCH_STEPS: [StepLine; 15] = [
    (0, Some(1), 3),
    (1, Some(2), 2),
    (2, Some(3), 1),
    (3, Some(5), 4),
    (3, Some(7), 4),
    (3, Some(4), 2),
    (4, Some(7), 3),
    (5, Some(8), 3),
    (6, Some(7), 1),
    (7, None, 5),
    (8, Some(9), 1),
    (9, Some(10), 1),
    (10, Some(9), 3),
    (10, Some(11), 1),
    (11, Some(6), 3),
];

const SKIPPED_STEPS: [StepLine; 9] = [
    (0, Some(1), 1),
    (1, Some(2), 1),
    (2, Some(4), 1),
    (2, Some(3), 1),
    (3, Some(4), 1),
    (4, Some(5), 1),
    (5, Some(1), 1),
    (5, Some(6), 1),
    (6, None, 1),
];

const TWO_LOOPS_STEPS: [StepLine; 9] = [
    (0, Some(1), 1),
    (1, Some(2), 1),
    (2, Some(3), 1),
    (3, Some(2), 1),
    (3, Some(4), 1),
    (4, Some(5), 1),
    (5, Some(1), 1),
    (5, Some(6), 1),
    (6, None, 1),
];

// the four nodes of `f`, and those of the called loop once for each call
const CALLED_STEPS: [StepLine; 14] = [
    (0, Some(1), 1),
    (1, Some(4), 1),
    (2, Some(8), 1),
    (3, None, 1),
    (4, Some(5), 1),
    (5, Some(6), 1),
    (6, Some(5), 1),
    (6, Some(7), 1),
    (7, Some(2), 1),
    (8, Some(9), 1),
    (9, Some(10), 1),
    (10, Some(9), 1),
    (10, Some(11), 1),
    (11, Some(3), 1),
];

pub fn flows<'a>() -> [Flow<'a>; 8] {
    [
        Flow {
            name: "a loop with a bound",
            code: &LOOP,
            facts: "loop 0x8004 9;",
            hardware: "",
            nodes: 4,
            steps: &LOOP_STEPS,
            loops: &[(1, 9, &[2], &[0])],
            limits: &[],
        },
        Flow {
            name: "a loop of no back step",
            code: &LOOP,
            facts: "loop 0x8004 0;",
            hardware: "",
            nodes: 4,
            steps: &LOOP_STEPS,
            loops: &[(1, 0, &[2], &[0])],
            limits: &[],
        },
        Flow {
            name: "a switch with a call",
            code: &SWITCH,
            facts: SWITCH_FACTS,
            hardware: SWITCH_CYCLES,
            nodes: 12,
            steps: &SWITCH_STEPS,
            loops: &[(9, 9, &[12], &[10])],
            limits: &[],
        },
        Flow {
            name: "a limit on a loop's head",
            code: &LOOP,
            facts: "loop 0x8004 9; limit [0x8004] <= 5;",
            hardware: "",
            nodes: 4,
            steps: &LOOP_STEPS,
            loops: &[(1, 9, &[2], &[0])],
            limits: &[(5, 1, 1)],
        },
        Flow {
            name: "a limit that no path meets",
            code: &LOOP,
            facts: "loop 0x8004 2; limit 7 <= [0x8004];",
            hardware: "",
            nodes: 4,
            steps: &LOOP_STEPS,
            loops: &[(1, 2, &[2], &[0])],
            limits: &[(-7, 1, -1)],
        },
        Flow {
            name: "half a visit",
            code: &SKIPPED_HALF,
            facts: "loop 0x8004 1; limit 2 * [0x800c] <= 3;",
            hardware: "",
            nodes: 7,
            steps: &SKIPPED_STEPS,
            loops: &[(1, 1, &[6], &[0])],
            limits: &[(3, 3, 2)],
        },
        Flow {
            name: "entries of an inner loop",
            code: &TWO_LOOPS,
            facts: "loop 0x8004 2; loop 0x8008 3;",
            hardware: "",
            nodes: 7,
            steps: &TWO_LOOPS_STEPS,
            loops: &[(1, 2, &[6], &[0]), (2, 3, &[3], &[1])],
            limits: &[],
        },
        Flow {
            name: "a limit for one call",
            code: &CALLED_TWICE,
            facts: "loop 0x8014 9; limit [0x8014 in 0x8004] <= 3;",
            hardware: "",
            nodes: 12,
            steps: &CALLED_STEPS,
            loops: &[(5, 9, &[6], &[4]), (9, 9, &[11], &[9])],
            limits: &[(3, 5, 1)],
        },
    ]
}

fn hardware_of(alloc: Global, text: &str) -> Result<Hardware, Trouble> {
    if text.is_empty() {
        return Ok(default_hardware());
    }
    read_hardware(alloc, text.as_bytes())
}

// The flow system that the phases give of `f`.
pub fn system_of<R: Threads + Sync>(rt: &R, alloc: Global, flow: &Flow) -> Result<System, Trouble> {
    let image = read_image(alloc, binary(alloc, flow.code)?)?;
    let hardware = hardware_of(alloc, flow.hardware)?;
    let mut facts = Vec::new(alloc);
    for (place, fact) in read_facts(alloc, flow.facts.as_bytes(), &image)?
        .into_iter()
        .enumerate()
    {
        facts.push((place as u64, fact))?;
    }
    let facts: Table<(u64, Fact)> = Table::new(facts);
    let entry = match find(&image, b"f") {
        Ok(entry) => entry,
        Err(fault) => return Err(Trouble::Fault(fault)),
    };
    let graph = build(alloc, &image, &facts, entry)?;
    let nest = nest(alloc, &graph)?;
    let bounds = bounds(alloc, &graph, &nest, &facts)?;
    let costs = costs_of(rt, alloc, &graph, &hardware)?;
    system(alloc, &graph, &nest, &bounds, &costs, &facts)
}

fn is_loop(stated: &SystemLoop, line: &LoopLine) -> bool {
    (stated.head, stated.bound) == (line.0, line.1)
        && stated.back.items() == line.2
        && stated.entry.items() == line.3
}

fn is_limit(stated: &SystemLimit, line: &LimitLine) -> bool {
    stated.constant == line.0 as i128
        && stated.factors.items() == [(line.1, line.2 as i128)].as_slice()
}

// The system has exactly the lines.
pub fn is_flow(system: &System, flow: &Flow) -> bool {
    let steps = system.steps.items();
    let loops = system.loops.items();
    let limits = system.limits.items();
    (system.nodes, system.start) == (flow.nodes, 0)
        && (steps.len(), loops.len(), limits.len())
            == (flow.steps.len(), flow.loops.len(), flow.limits.len())
        && steps.iter().zip(flow.steps).all(|(step, line)| (step.source, step.target, step.cost)
            == *line)
        && loops
            .iter()
            .zip(flow.loops)
            .all(|(stated, line)| is_loop(stated, line))
        && limits
            .iter()
            .zip(flow.limits)
            .all(|(stated, line)| is_limit(stated, line))
}
