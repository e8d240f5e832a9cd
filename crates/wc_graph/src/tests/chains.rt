use super::{graph_of, is_fault, none};
use std::alloc::{AllocError, Global};
use std::test::Fail;
use wc_base::Fault;
use wc_model::Context;

// One function calls two others, and both call a fourth one.
const LAYERS: [u32; 11] = [
    0xE92D4010, 0xEB000001, 0xEB000003, 0xE8BD8010, 0xE92D4010, 0xEB000003, 0xE8BD8010, 0xE92D4010,
    0xEB000000, 0xE8BD8010, 0xE12FFF1E,
];

#[test]
fn stacks_are_ordered_from_the_outermost_call(rt: HostRuntime) -> Result<(), Fail> {
    let graph = graph_of(rt.alloc(), 0x8000, &LAYERS, none(rt.alloc()))?;
    let call = |parent, returns, callee| Context {
        parent,
        returns,
        callee,
    };
    let contexts = [
        call(None, 0, 0x8000),
        call(Some(0), 0x8008, 0x8010),
        call(Some(1), 0x8018, 0x8028),
        call(Some(0), 0x800C, 0x801C),
        call(Some(3), 0x8024, 0x8028),
    ];
    assert!(rt; graph.contexts.items() == contexts.as_slice());
    Ok(())
}

#[test]
fn a_chain_of_calls_is_followed_to_its_end(rt: HostRuntime) -> Result<(), Fail> {
    let alloc = rt.alloc();
    let mut words = Vec::new(alloc);
    for _ in 0..12 {
        words.extend_from_slice(&[0xE92D4010, 0xEB000000, 0xE8BD8010])?;
    }
    words.push(0xE12FFF1E)?;
    let graph = graph_of(alloc, 0x8000, words.as_slice(), none(alloc))?;
    assert!(rt; graph.contexts.items().len() == 13);
    assert!(rt; graph.nodes.items().len() == 37);
    Ok(())
}

fn straight(alloc: Global, count: u32) -> Result<Vec<u32>, AllocError> {
    let mut words = Vec::new(alloc);
    for _ in 1..count {
        words.push(0xE1A00000)?;
    }
    words.push(0xE12FFF1E)?;
    Ok(words)
}

#[test]
fn at_most_100000_positions_are_analysed(rt: HostRuntime) -> Result<(), Fail> {
    let alloc = rt.alloc();
    let most = graph_of(
        alloc,
        0x8000,
        straight(alloc, 100_000)?.as_slice(),
        none(alloc),
    )?;
    assert!(rt; most.nodes.items().len() == 100_000);
    let more = graph_of(
        alloc,
        0x8000,
        straight(alloc, 100_001)?.as_slice(),
        none(alloc),
    );
    assert!(rt; is_fault(more, Fault::TooLarge));
    Ok(())
}
