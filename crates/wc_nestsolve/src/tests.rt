ghost use Rattle.std.specs.Prelude.{◌≡◌, IfOk, length};
ghost use Rattle.wc_model.specs.Program.Graphs.{IsGraph};

use crate::solve;
use std::alloc::{AllocError, Global};
use std::test::Fail;
use wc_dual::{Check, check};
use wc_model::{Bounds, Class, Context, Control, Costs, Graph, Insn, Node, Step, Table};
use wc_nest::nest;
use wc_system::system;

const INSN: Insn = Insn {
    class: Class::Alu,
    moved: 0,
    control: Control::Next,
    always: true,
};

const CONTEXTS: [Context; 1] = [Context {
    parent: None,
    returns: 0,
    callee: 0x8000,
}];

const NODES: [Node; 6] = [
    Node {
        context: 0,
        pc: 0x8000,
        insn: INSN,
    },
    Node {
        context: 0,
        pc: 0x8004,
        insn: INSN,
    },
    Node {
        context: 0,
        pc: 0x8008,
        insn: INSN,
    },
    Node {
        context: 0,
        pc: 0x800C,
        insn: INSN,
    },
    Node {
        context: 0,
        pc: 0x8010,
        insn: INSN,
    },
    Node {
        context: 0,
        pc: 0x8014,
        insn: INSN,
    },
];

// A loop round the start, with a loop of one node on one of its two branches; then a loop of two nodes.
const STEPS: [Step; 10] = [
    Step {
        source: 0,
        target: Some(1),
        taken: false,
    },
    Step {
        source: 1,
        target: Some(2),
        taken: false,
    },
    Step {
        source: 1,
        target: Some(3),
        taken: false,
    },
    Step {
        source: 2,
        target: Some(2),
        taken: false,
    },
    Step {
        source: 2,
        target: Some(3),
        taken: false,
    },
    Step {
        source: 3,
        target: Some(0),
        taken: false,
    },
    Step {
        source: 3,
        target: Some(4),
        taken: false,
    },
    Step {
        source: 4,
        target: Some(5),
        taken: false,
    },
    Step {
        source: 5,
        target: Some(4),
        taken: false,
    },
    Step {
        source: 5,
        target: None,
        taken: false,
    },
];

fn three_loops(alloc: Global) -> Result<Graph, AllocError>
    ensures graph { IfOk result IsGraph }
    ensures counted { IfOk result (λ g. length g.steps ≡ 10) }
{
    Ok(Graph {
        contexts: Table::new(CONTEXTS.to_vec(alloc)?),
        nodes: Table::new(NODES.to_vec(alloc)?),
        steps: Table::new(STEPS.to_vec(alloc)?),
        start: 0,
    })
}

// The optimum of the three loops, and what is found of its certificate; nothing where a phase before refuses.
fn optimum(
    alloc: Global,
    bounds: [u32; 3],
    costs: [u64; 10],
) -> Result<Option<(i128, Check)>, AllocError> {
    let graph = three_loops(alloc)?;
    let bounds = Bounds {
        of: Table::new(bounds.to_vec(alloc)?),
    };
    let costs = Costs {
        of: Table::new(costs.to_vec(alloc)?),
    };
    let facts = Table::new(Vec::new(alloc));
    let Ok(nest) = nest(alloc, &graph) else {
        return Ok(None);
    };
    if nest.heads.items().len() != 3 {
        return Ok(None);
    }
    let Ok(system) = system(alloc, &graph, &nest, &bounds, &costs, &facts) else {
        return Ok(None);
    };
    let solution = solve(alloc, &graph, &nest, &system)?;
    Ok(Some((solution.num, check(&system, &solution))))
}

// Bounds of the loop round the start, of the last one and of the one inside, then the costs of the steps.
#[test]
fn each_loop_goes_its_best_round_as_often_as_its_bound_allows(rt: HostRuntime) -> Result<(), Fail> {
    let most = u32::MAX;
    let rows: [([u32; 3], [u64; 10], i128); 8] = [
        // three times 1 + 1 + 3 + 1, two steps back, then 1 + 4 + 3 + 1
        ([2, 3, 3], [1, 1, 1, 1, 1, 1, 1, 1, 1, 1], 29),
        // bounds of 0: 1 + 1 + 1, then 1 + 1 + 1
        ([0, 0, 0], [1, 1, 1, 1, 1, 1, 1, 1, 1, 1], 6),
        // the branch without the loop inside is the dearer one: three times 1 + 100, two steps back, then 1 + 1 + 1
        ([2, 0, 3], [1, 1, 100, 1, 1, 1, 1, 1, 1, 1], 308),
        // a step back costs less than the exit: 1 + 1 + 1, then 1 + 6 + 5 + 40
        ([0, 5, 0], [1, 1, 1, 1, 1, 1, 1, 1, 1, 40], 55),
        // two best ways: twice 1 + 4, a step back, then 1 + 1 + 1
        ([1, 0, 2], [1, 1, 4, 1, 1, 1, 1, 1, 1, 1], 14),
        // rounds that cost nothing
        ([9, 9, 9], [0, 0, 0, 0, 0, 0, 0, 0, 0, 7], 7),
        // the loop inside is entered three times: three times 5, two steps back of 10, then 1 + 1 + 1
        ([2, 0, 4], [0, 0, 0, 1, 1, 10, 1, 1, 1, 1], 38),
        // the ceiling is 2^100 - 1
        (
            [most, 0, most],
            [1, 1, 1, (1 << 36) - 1, 1, 1, 1, 18446744060824649726, 0, 1],
            1267650599933081496325940314111,
        ),
    ];
    for (bounds, costs, value) in rows {
        let Some((num, answer)) = optimum(rt.alloc(), bounds, costs)? else {
            return Err(Fail::new("refused"));
        };
        assert_eq!(rt; num, value);
        assert!(rt; matches!(answer, Check::Yes));
    }
    Ok(())
}
