ghost use Rattle.std.specs.Prelude.{◌≡◌, IfOk, length};
ghost use Rattle.wc_model.specs.Flow.Systems.{IsNestShape};
ghost use Rattle.wc_model.specs.Program.Graphs.{IsGraph};

use crate::system;
use std::alloc::{AllocError, Global};
use std::test::Fail;
use wc_base::{Fault, Trouble};
use wc_model::{
    Bounds, Class, Context, Control, Costs, Fact, Facts, Graph, Head, Insn, Nest, Node, Step, Sum,
    System, Table, Term,
};

const AT: u32 = 0x8000;

const CALL: u32 = 0x9000;

const INSN: Insn = Insn {
    class: Class::Alu,
    moved: 0,
    control: Control::Next,
    always: true,
};

// Two nodes of one address, the second one inside a call.
const CONTEXTS: [Context; 2] = [
    Context {
        parent: None,
        returns: 0,
        callee: AT,
    },
    Context {
        parent: Some(0),
        returns: CALL + 4,
        callee: AT,
    },
];

const NODES: [Node; 2] = [
    Node {
        context: 0,
        pc: AT,
        insn: INSN,
    },
    Node {
        context: 1,
        pc: AT,
        insn: INSN,
    },
];

// A loop round the start, with a loop of one node inside.
const STEPS: [Step; 4] = [
    Step {
        source: 0,
        target: Some(1),
        taken: false,
    },
    Step {
        source: 1,
        target: Some(1),
        taken: true,
    },
    Step {
        source: 1,
        target: Some(0),
        taken: true,
    },
    Step {
        source: 1,
        target: None,
        taken: false,
    },
];

const HEADS: [Head; 2] = [
    Head {
        node: 0,
        parent: None,
    },
    Head {
        node: 1,
        parent: Some(0),
    },
];

const INSIDE: [Option<u32>; 2] = [Some(0), Some(1)];

const BACK: [bool; 4] = [false, true, true, false];

fn two_loops(alloc: Global) -> Result<(Graph, Nest), AllocError>
    ensures fit { IfOk result (λ w. IsGraph w.0 × IsNestShape w.0 w.1) }
    ensures counted { IfOk result (λ w. (length w.0.steps ≡ 4) × (length w.1.heads ≡ 2)) }
{
    let graph = Graph {
        contexts: Table::new(CONTEXTS.to_vec(alloc)?),
        nodes: Table::new(NODES.to_vec(alloc)?),
        steps: Table::new(STEPS.to_vec(alloc)?),
        start: 0,
    };
    let nest = Nest {
        heads: Table::new(HEADS.to_vec(alloc)?),
        inside: Table::new(INSIDE.to_vec(alloc)?),
        back: Table::new(BACK.to_vec(alloc)?),
    };
    Ok((graph, nest))
}

// The system of the two loops, or why there is none.
fn of(
    alloc: Global,
    bounds: [u32; 2],
    costs: [u64; 4],
    facts: &Facts,
) -> Result<Result<System, Fault>, AllocError> {
    let (graph, nest) = two_loops(alloc)?;
    let bounds = Bounds {
        of: Table::new(bounds.to_vec(alloc)?),
    };
    let costs = Costs {
        of: Table::new(costs.to_vec(alloc)?),
    };
    match system(alloc, &graph, &nest, &bounds, &costs, facts) {
        Ok(system) => Ok(Ok(system)),
        Err(Trouble::Fault(fault)) => Ok(Err(fault)),
        Err(Trouble::Memory(error)) => Err(error),
    }
}

// A term of a limit: how often visits of an address count, everywhere or in a call alone.
type Visits = (u32, u32, Option<u32>);

// One side of a limit: a constant and two terms.
type Side = (u32, Visits, Visits);

const NONE: Visits = (0, AT, None);

const ALL: Visits = (1, AT, None);

const INNER: Visits = (1, AT, Some(CALL));

fn term(alloc: Global, visits: Visits) -> Result<Term, AllocError> {
    let mut within = Vec::new(alloc);
    if let Some(call) = visits.2 {
        within.push(call)?;
    }
    Ok(Term::Visits {
        times: visits.0,
        at: visits.1,
        within: Table::new(within),
    })
}

fn sum(alloc: Global, side: Side) -> Result<Sum, AllocError> {
    let mut terms = Vec::new(alloc);
    terms.push(Term::Constant(side.0))?;
    terms.push(term(alloc, side.1)?)?;
    terms.push(term(alloc, side.2)?)?;
    Ok(Table::new(terms))
}

// The same limit a few times.
fn limits(alloc: Global, count: usize, left: Side, right: Side) -> Result<Facts, AllocError> {
    let mut facts = Vec::new(alloc);
    for _ in 0..count {
        let limit = Fact::Limit {
            left: sum(alloc, left)?,
            right: sum(alloc, right)?,
        };
        facts.push((0, limit))?;
    }
    Ok(Table::new(facts))
}

#[test]
fn a_loop_lists_the_steps_back_to_its_head_and_those_that_enter(
    rt: HostRuntime,
) -> Result<(), Fail> {
    let system = of(
        rt.alloc(),
        [7, 9],
        [1, 2, 3, 4],
        &Table::new(Vec::new(rt.alloc())),
    )?;
    let Ok(system) = system else {
        return Err(Fail::new("refused"));
    };
    assert_eq!(rt;
        (system.nodes, system.start, system.steps.items().len()),
        (2, 0, 4)
    );
    let costs = [1, 2, 3, 4];
    for (place, step) in system.steps.items().iter().enumerate() {
        assert_eq!(rt;
            (step.source, step.target),
            (STEPS[place].source, STEPS[place].target)
        );
        assert_eq!(rt; step.cost, costs[place]);
    }
    let loops = system.loops.items();
    assert_eq!(rt; loops.len(), 2);
    assert_eq!(rt;
        (loops[0].head, loops[0].bound, loops[1].head, loops[1].bound),
        (0, 7, 1, 9)
    );
    assert!(rt; loops[0].back.items() == [2].as_slice() && loops[0].entry.items().is_empty());
    assert!(rt;
        loops[1].back.items() == [1].as_slice() && loops[1].entry.items() == [0].as_slice()
    );
    Ok(())
}

#[test]
fn a_limit_names_the_nodes_of_other_factors_than_0(rt: HostRuntime) -> Result<(), Fail> {
    let alloc = rt.alloc();
    let rows: [(Side, Side, i128, [i128; 2]); 8] = [
        ((0, ALL, NONE), (3, NONE, NONE), 3, [1, 1]),
        ((0, INNER, NONE), (3, NONE, NONE), 3, [0, 1]),
        (
            (0, (1, AT, Some(CALL + 4)), NONE),
            (3, NONE, NONE),
            3,
            [0, 0],
        ),
        ((0, (1, AT + 4, None), NONE), (3, NONE, NONE), 3, [0, 0]),
        (
            (2, (5, AT, None), NONE),
            (10, (3, AT, Some(CALL)), NONE),
            8,
            [5, 2],
        ),
        ((0, (2, AT, None), NONE), (4, ALL, ALL), 4, [0, 0]),
        ((7, NONE, NONE), (4, NONE, NONE), -3, [0, 0]),
        ((7, NONE, NONE), (4, (6, AT, Some(CALL)), ALL), -3, [-1, -7]),
    ];
    for (left, right, constant, factors) in rows {
        let facts = limits(alloc, 2, left, right)?;
        let Ok(system) = of(alloc, [7, 9], [1, 2, 3, 4], &facts)? else {
            return Err(Fail::new("refused"));
        };
        let mut wanted = Vec::new(alloc);
        for (node, factor) in factors.iter().enumerate() {
            if *factor != 0 {
                wanted.push((node as u32, *factor))?;
            }
        }
        assert_eq!(rt; system.limits.items().len(), 2);
        for limit in system.limits.items() {
            assert_eq!(rt; limit.constant, constant);
            assert!(rt; limit.factors.items() == wanted.as_slice());
        }
    }
    Ok(())
}

// Beside four steps and two loops, `n` limits make 2 * (n + 6) * (n + 6) cells.
#[test]
fn the_ceiling_ends_at_2_to_100_and_the_tableau_at_250000_cells(
    rt: HostRuntime,
) -> Result<(), Fail> {
    let alloc = rt.alloc();
    let most = [u32::MAX, u32::MAX];
    let below = [(1 << 32) - 1, (1 << 36) - 1, 0, 0];
    let at = [1 << 32, (1 << 36) - 1, 0, 0];
    let rows = [
        (most, below, 0, None),
        (most, at, 0, Some(Fault::NumberLimit)),
        ([7, 9], at, 347, None),
        ([7, 9], at, 348, Some(Fault::SystemLimit)),
        (most, at, 348, Some(Fault::NumberLimit)),
        (most, below, 348, Some(Fault::SystemLimit)),
    ];
    for (bounds, costs, count, wanted) in rows {
        let facts = limits(alloc, count, (0, NONE, NONE), (1, NONE, NONE))?;
        assert_eq!(rt; of(alloc, bounds, costs, &facts)?.err(), wanted);
    }
    Ok(())
}
