ghost use Rattle.std.specs.Prelude.{◌+◌, ◌≤◌, ◌^◌, length};

mod chains;

use crate::build;
use std::alloc::{AllocError, Global};
use std::test::Fail;
use wc_base::{Addr, Fault, Trouble};
use wc_model::{Fact, Facts, Graph, Image, Range, Table};

fn image_of(alloc: Global, start: Addr, bytes: Vec<u8>) -> Result<Image, AllocError>
    requires few { length bytes.items ≤ 1000000 }
    requires inside { start + length bytes.items ≤ 2 ^ 32 }
{
    let range = Range {
        start,
        offset: 0,
        length: bytes.len() as u32,
    };
    Ok(Image {
        bytes: Table::new(bytes),
        ranges: Table::new(Vec::from_array(alloc, [range])?),
        names: Table::new(Vec::new(alloc)),
    })
}

fn graph_of(
    alloc: Global,
    start: Addr,
    words: &[u32],
    facts: Vec<(u64, Fact)>,
) -> Result<Graph, Trouble> {
    let mut bytes = Vec::new(alloc);
    for word in words {
        bytes.extend_from_slice(&word.to_le_bytes())?;
    }
    if 1_000_000 < bytes.len() || 1 << 32 < start as usize + bytes.len() {
        return Err(Trouble::Fault(Fault::NoSymbol));
    }
    let image = image_of(alloc, start, bytes)?;
    build(alloc, &image, &Facts::new(facts), start)
}

fn none(alloc: Global) -> Vec<(u64, Fact)> {
    Vec::new(alloc)
}

fn noreturn(alloc: Global, at: Addr) -> Result<Vec<(u64, Fact)>, AllocError> {
    Ok(Vec::from_array(alloc, [(2, Fact::Noreturn { at })])?)
}

fn branches(alloc: Global, at: Addr, to: &[Addr]) -> Result<Vec<(u64, Fact)>, AllocError> {
    let to = Table::new(to.to_vec(alloc)?);
    Ok(Vec::from_array(alloc, [(2, Fact::Multibranch { at, to })])?)
}

fn calls(alloc: Global, at: Addr, to: &[Addr]) -> Result<Vec<(u64, Fact)>, AllocError> {
    let to = Table::new(to.to_vec(alloc)?);
    Ok(Vec::from_array(alloc, [(2, Fact::Multicall { at, to })])?)
}

fn is_fault(answer: Result<Graph, Trouble>, fault: Fault) -> bool {
    match answer {
        Err(Trouble::Fault(found)) => found == fault,
        _ => false,
    }
}

const RECURSION: [u32; 3] = [0xE92D4010, 0xEBFFFFFD, 0xE8BD8010];

// A switch over a table of addresses, which stand behind it as words.
const SWITCH: [u32; 15] = [
    0xE92D4010, 0xE59F401C, 0xE3500001, 0x979FF100, 0xEA000003, 0x0000801C, 0x00008024, 0xEB000002,
    0xE1A00000, 0xE8BD8010, 0x0000002A, 0xE3A0000A, 0xE2500001, 0x1AFFFFFD, 0xE12FFF1E,
];

// Three functions that call one another in a circle.
const CIRCLE: [u32; 9] = [
    0xE92D4010, 0xEB000000, 0xE8BD8010, 0xE92D4010, 0xEB000000, 0xE8BD8010, 0xE92D4010, 0xEBFFFFF7,
    0xE8BD8010,
];

#[test]
fn the_first_fault_refuses_a_function(rt: HostRuntime) -> Result<(), Fail> {
    let alloc = rt.alloc();
    let start = 0x8000;
    let recursion = graph_of(alloc, start, &RECURSION, none(alloc));
    assert!(rt; is_fault(recursion, Fault::Recursion(0x8004)));
    let circle = graph_of(alloc, start, &CIRCLE, none(alloc));
    assert!(rt; is_fault(circle, Fault::Recursion(0x801C)));
    let endless = graph_of(alloc, start, &RECURSION, noreturn(alloc, 0x8000)?);
    assert!(rt; is_fault(endless, Fault::NoExit));
    let unknown = graph_of(alloc, start, &[0xE7F000F0], none(alloc));
    assert!(rt; is_fault(unknown, Fault::UnknownInstruction(0x8000)));
    let outside = graph_of(alloc, start, &[0xEA000000], none(alloc));
    assert!(rt; is_fault(outside, Fault::OutOfText(0x8008)));
    let switch = graph_of(alloc, start, &SWITCH, none(alloc));
    assert!(rt; is_fault(switch, Fault::Unresolved(0x800C)));
    let around = graph_of(alloc, 0xFFFF_FFFC, &[0xE1A00000], none(alloc));
    assert!(rt; is_fault(around, Fault::OutOfText(0)));
    // the least address counts, though it is found last
    let two = graph_of(
        alloc,
        start,
        &[0x0A000001, 0xE1A00000, 0xE7F000F0, 0xE7F000F0],
        none(alloc),
    );
    assert!(rt; is_fault(two, Fault::UnknownInstruction(0x8008)));
    let entry = [0xE92D4010, 0xE12FFF33, 0xE8BD8010];
    let again = graph_of(alloc, start, &entry, calls(alloc, 0x8004, &[0x8000])?);
    assert!(rt; is_fault(again, Fault::Recursion(0x8004)));
    Ok(())
}

// The nodes as context and address, the steps as source, target and whether they are taken.
fn is_shape(graph: &Graph, nodes: &[(u32, Addr)], steps: &[(u32, Option<u32>, bool)]) -> bool {
    let same_nodes = graph
        .nodes
        .items()
        .iter()
        .map(|n| (n.context, n.pc))
        .eq(nodes.iter().copied());
    let found = graph
        .steps
        .items()
        .iter()
        .map(|s| (s.source, s.target, s.taken));
    same_nodes && found.eq(steps.iter().copied())
}

#[test]
fn each_call_has_its_own_copy_of_a_function(rt: HostRuntime) -> Result<(), Fail> {
    let alloc = rt.alloc();
    let start = 0x8000;
    let twice = graph_of(
        alloc,
        start,
        &[0xE92D4010, 0xEB000001, 0xEB000000, 0xE8BD8010, 0xE12FFF1E],
        none(alloc),
    )?;
    assert!(rt;
        is_shape(
            &twice,
            &[
                (0, 0x8000),
                (0, 0x8004),
                (0, 0x8008),
                (0, 0x800C),
                (1, 0x8010),
                (2, 0x8010)
            ],
            &[
                (0, Some(1), false),
                (1, Some(4), true),
                (2, Some(5), true),
                (3, None, true),
                (4, Some(2), true),
                (5, Some(3), true),
            ],
        )
    );
    let stated = graph_of(
        alloc,
        start,
        &[
            0xE92D4010, 0xE12FFF33, 0xE8BD8010, 0xE12FFF1E, 0xE1A00000, 0xE12FFF1E,
        ],
        calls(alloc, 0x8004, &[0x8010, 0x800C, 0x8010])?,
    )?;
    assert!(rt;
        is_shape(
            &stated,
            &[
                (0, 0x8000),
                (0, 0x8004),
                (0, 0x8008),
                (1, 0x800C),
                (2, 0x8010),
                (2, 0x8014)
            ],
            &[
                (0, Some(1), false),
                (1, Some(3), true),
                (1, Some(4), true),
                (2, None, true),
                (3, Some(2), true),
                (4, Some(5), false),
                (5, Some(2), true),
            ],
        )
    );
    let conditional = graph_of(
        alloc,
        start,
        &[0xE92D4010, 0x0B000000, 0xE8BD8010, 0xE12FFF1E],
        none(alloc),
    )?;
    assert!(rt;
        is_shape(
            &conditional,
            &[(0, 0x8000), (0, 0x8004), (0, 0x8008), (1, 0x800C)],
            &[
                (0, Some(1), false),
                (1, Some(3), true),
                (1, Some(2), false),
                (2, None, true),
                (3, Some(2), true),
            ],
        )
    );
    Ok(())
}

#[test]
fn steps_are_those_between_live_positions(rt: HostRuntime) -> Result<(), Fail> {
    let alloc = rt.alloc();
    let start = 0x8000;
    let itself = graph_of(
        alloc,
        start,
        &[0xE12FFF11, 0xE12FFF1E],
        branches(alloc, 0x8000, &[0x8004, 0x8000, 0x8004])?,
    )?;
    assert!(rt;
        is_shape(
            &itself,
            &[(0, 0x8000), (0, 0x8004)],
            &[(0, Some(0), true), (0, Some(1), true), (1, None, true)],
        )
    );
    let trap = graph_of(
        alloc,
        start,
        &[0x0A000000, 0xE12FFF1E, 0xEAFFFFFE],
        none(alloc),
    )?;
    assert!(rt;
        is_shape(
            &trap,
            &[(0, 0x8000), (0, 0x8004)],
            &[(0, Some(1), false), (1, None, true)],
        )
    );
    let jumped = graph_of(
        alloc,
        start,
        &[0xEAFFFFFF, 0xE12FFF1E],
        noreturn(alloc, 0x8004)?,
    )?;
    assert!(rt;
        is_shape(
            &jumped,
            &[(0, 0x8000), (0, 0x8004)],
            &[(0, Some(1), true), (1, None, true)],
        )
    );
    Ok(())
}
