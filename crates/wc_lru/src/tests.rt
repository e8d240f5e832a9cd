ghost use Rattle.std.specs.Prelude.{◌≡◌, ◌<◌, ◌≤◌, All, IfOk, IfSome, IsTrue, length};
ghost use Rattle.wc_model.specs.Cache.Ranges.{are_cache_numbers};

use crate::{Lru, cycles};
use std::alloc::{AllocError, Global};
use std::test::Fail;
use wc_model::{Cache, Class, Control, Cycles, Graph, Insn, Node, StartState, Step, Table};

fn cache(sets: u16, ways: u8, line: u8) -> Cache
    requires { IsTrue (are_cache_numbers sets ways line) }
{
    Cache {
        sets,
        ways,
        line,
        start: StartState::Empty,
    }
}

// Per row: sets, ways, line size, and fetches in order, each an address and whether it hits.
#[test]
fn a_set_drops_what_was_used_least_recently(rt: HostRuntime) -> Result<(), Fail> {
    let rows = [
        // one way: the last line alone, at any of its addresses
        (
            cache(1, 1, 16),
            [0x00, 0x0C, 0x10, 0x1C, 0x00, 0x04],
            [false, true, false, true, false, true],
        ),
        // two ways: an old line that is used again stays
        (
            cache(1, 2, 16),
            [0x00, 0x10, 0x00, 0x20, 0x00, 0x10],
            [false, false, true, false, true, false],
        ),
        // 512 sets: lines 512 apart share a set, neighbours don't
        (
            cache(512, 1, 64),
            [0x00, 0x40, 0x8000, 0x40, 0x00, 0x8000],
            [false, false, false, true, false, false],
        ),
        (
            cache(512, 2, 64),
            [0x00, 0x40, 0x8000, 0x40, 0x00, 0x8000],
            [false, false, false, true, true, true],
        ),
        // lines of 32 bytes, and the last line of memory
        (
            cache(2, 8, 32),
            [0x1C, 0x20, 0x04, 0x3C, 0xFFFF_FFFC, 0xFFFF_FFE0],
            [false, false, true, true, false, true],
        ),
    ];
    for (cache, addresses, hits) in &rows {
        let mut lru = Lru::new(rt.alloc(), cache)?;
        for (at, hit) in addresses.iter().zip(hits) {
            assert_eq!(rt; lru.fetch(*at), *hit, "{at}");
        }
    }
    let mut lru = Lru::new(rt.alloc(), &cache(1, 8, 16))?;
    for line in 0..9 {
        assert_eq!(rt; lru.fetch(line * 16), false, "{line}");
    }
    assert_eq!(rt;
        (lru.fetch(0x80), lru.fetch(0x10), lru.fetch(0x00)),
        (true, true, false)
    );
    Ok(())
}

fn node(pc: u32) -> Node {
    Node {
        context: 0,
        pc,
        insn: Insn {
            class: Class::Alu,
            moved: 0,
            control: Control::Next,
            always: true,
        },
    }
}

// Whether the steps leave nodes.
fn leave(nodes: &[Node], steps: &[Step]) -> bool
    ensures { IsTrue result → All (λ s. s.source < length nodes.now) steps.now }
{
    for step in steps {
        if nodes.len() <= step.source as usize {
            return false;
        }
    }
    true
}

// A graph from node 0, by the addresses of its nodes and its steps; `None` where a step leaves no node.
fn graph(
    alloc: Global,
    pcs: &[u32],
    steps: &[(u32, Option<u32>, bool)],
) -> Result<Option<Graph>, AllocError>
    ensures { IfOk result (λ some. IfSome some (λ g. All (λ s. s.source < length g.nodes) g.steps)) }
{
    let nodes: Vec<Node> = pcs.iter().map(|pc| node(*pc)).collect(alloc)?;
    let steps: Vec<Step> = steps
        .iter()
        .map(|step| Step {
            source: step.0,
            target: step.1,
            taken: step.2,
        })
        .collect(alloc)?;
    if !leave(&nodes, &steps) {
        return Ok(None);
    }
    Ok(Some(Graph {
        contexts: Table::new(Vec::new(alloc)),
        nodes: Table::new(nodes),
        steps: Table::new(steps),
        start: 0,
    }))
}

// Each instruction takes one cycle, and a miss `more` than a hit.
fn ones(taken: u16, hit: u8, more: u8) -> Cycles {
    Cycles {
        alu: 1,
        mul: 1,
        div: 1,
        load: 1,
        store: 1,
        multi: 1,
        branch: 1,
        system: 1,
        taken,
        per_register: 0,
        hit: hit as u16,
        miss: hit as u16 + more as u16,
    }
}

#[test]
fn a_path_costs_its_steps_and_their_fetches(rt: HostRuntime) -> Result<(), Fail> {
    let alloc = rt.alloc();
    let small = cache(1, 2, 16);
    // a function of two instructions
    let Some(two) = graph(
        alloc,
        &[0x8000, 0x8004],
        &[(0, Some(1), false), (1, None, true)],
    )?
    else {
        panic!(rt; "steps")
    };
    let rows: [(&[u32], Option<u128>); 6] = [
        (&[0, 1], Some(12)),
        (&[], None),
        (&[0], None),
        (&[1], None),
        (&[0, 2], None),
        (&[0, 1, 0, 1], None),
    ];
    for (path, want) in rows {
        let mut lru = Lru::new(alloc, &small)?;
        assert_eq!(rt; cycles(&two, path, &ones(0, 0, 10), Some(&mut lru)), want);
    }
    assert_eq!(rt; cycles(&two, &[0, 1], &ones(5, 0, 0), None), Some(7));
    assert_eq!(rt; cycles(&two, &[0], &ones(5, 0, 0), None), None);

    // a loop of two instructions between its start and its end, all in one line
    let steps = [
        (0, Some(1), false),
        (1, Some(2), false),
        (2, Some(1), true),
        (2, Some(3), false),
        (3, None, true),
    ];
    let Some(turns) = graph(alloc, &[0x8000, 0x8004, 0x8008, 0x800C], &steps)? else {
        panic!(rt; "steps")
    };
    // how often it turns, what a hit takes, what a miss takes more, and the cycles
    let rows = [
        (9, 0, 10, 32),
        (1000, 0, 10, 2014),
        (1000, 1, 0, 4008),
        (1000, 2, 3, 6015),
    ];
    for (count, hit, more, want) in rows {
        let mut path = vec![in alloc; 0]?;
        for _ in 0..count {
            path.push(1)?;
            path.push(2)?;
        }
        path.extend_from_slice(&[1, 3, 4])?;
        let mut lru = Lru::new(alloc, &small)?;
        assert_eq!(rt;
            cycles(&turns, &path, &ones(0, hit, more), Some(&mut lru)),
            Some(want)
        );
    }
    Ok(())
}
