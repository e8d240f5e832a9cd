ghost use Rattle.std.specs.Prelude.{IsTrue};
ghost use Rattle.wc_model.specs.Cache.Ranges.{are_cache_numbers};

use crate::lines;
use std::alloc::{AllocError, Global};
use std::test::Fail;
use wc_model::{Cache, Class, Control, Graph, Insn, Node, StartState, Table};

fn node(pc: u32) -> Node {
    Node {
        context: 0,
        pc,
        insn: Insn {
            class: Class::Alu,
            moved: 0,
            control: Control::Next,
            always: true,
        },
    }
}

fn graph(alloc: Global, pcs: &[u32]) -> Result<Graph, AllocError> {
    Ok(Graph {
        contexts: Table::new(Vec::new(alloc)),
        nodes: Table::new(pcs.iter().map(|pc| node(*pc)).collect(alloc)?),
        steps: Table::new(Vec::new(alloc)),
        start: 0,
    })
}

fn cache(sets: u16, line: u8) -> Cache
    requires { IsTrue (are_cache_numbers sets 2 line) }
{
    Cache {
        sets,
        ways: 2,
        line,
        start: StartState::Empty,
    }
}

#[test]
fn divides_addresses_by_lines_and_lines_among_sets(rt: HostRuntime) -> Result<(), Fail> {
    let graph = graph(rt.alloc(), &[0x8000, 0x800C, 0x8010, 0xFFFF_FFFC])?;
    let rows = [
        (
            cache(1, 16),
            [0x800, 0x800, 0x801, 0x0FFF_FFFF],
            [0, 0, 0, 0],
        ),
        (
            cache(2, 16),
            [0x800, 0x800, 0x801, 0x0FFF_FFFF],
            [0, 0, 1, 1],
        ),
        (
            cache(128, 32),
            [0x400, 0x400, 0x400, 0x07FF_FFFF],
            [0, 0, 0, 127],
        ),
        (
            cache(512, 64),
            [0x200, 0x200, 0x200, 0x03FF_FFFF],
            [0, 0, 0, 511],
        ),
        (
            cache(512, 16),
            [0x800, 0x800, 0x801, 0x0FFF_FFFF],
            [0, 0, 1, 511],
        ),
    ];
    for (cache, line, set) in &rows {
        let map = lines(rt.alloc(), &graph, Some(cache))?;
        assert_eq!(rt; map.line.items(), line.as_slice());
        assert_eq!(rt; map.set.items(), set.as_slice());
    }
    let map = lines(rt.alloc(), &graph, None)?;
    assert_eq!(rt; (map.line.items().len(), map.set.items().len()), (0, 0));
    Ok(())
}
