ghost use Rattle.std.specs.Prelude.{◌≡◌, ◌<◌, ◌≤◌, All, IfOk, IsTrue, length};

use crate::costs;
use std::alloc::{AllocError, Global};
use std::test::Fail;
use wc_model::{Category, Class, Control, Cycles, Graph, Insn, Node, Step, Table};

const CLASSES: [Class; 8] = [
    Class::Alu,
    Class::Mul,
    Class::Div,
    Class::Load,
    Class::Store,
    Class::Multi,
    Class::Branch,
    Class::System,
];

// a node of each class, which moves as many registers as its number says
fn nodes(alloc: Global) -> Result<Vec<Node>, AllocError>
    ensures { IfOk result (λ v. length v.items ≡ 8) }
{
    let mut nodes = Vec::new(alloc);
    for number in 0..8 {
        nodes.push(Node {
            context: 0,
            pc: 0x8000 + 4 * number as u32,
            insn: Insn {
                class: CLASSES[number],
                moved: number as u8,
                control: Control::Next,
                always: true,
            },
        })?;
    }
    Ok(nodes)
}

// Whether the steps leave the eight nodes.
fn leave(steps: &[Step]) -> bool
    ensures { IsTrue result → All (λ s. s.source < 8) steps.now }
{
    for step in steps {
        if 8 <= step.source {
            return false;
        }
    }
    true
}

// The costs of steps, each a source and whether it is taken; `None` where one leaves no node.
fn of(
    alloc: Global,
    cycles: &Cycles,
    categories: &[Category; 8],
    steps: &[(u32, bool)],
) -> Result<Option<Vec<u64>>, AllocError> {
    let steps: Vec<Step> = steps
        .iter()
        .map(|step| Step {
            source: step.0,
            target: None,
            taken: step.1,
        })
        .collect(alloc)?;
    if !leave(&steps) {
        return Ok(None);
    }
    let graph = Graph {
        contexts: Table::new(Vec::new(alloc)),
        nodes: Table::new(nodes(alloc)?),
        steps: Table::new(steps),
        start: 0,
    };
    let costs = costs(alloc, &graph, categories, cycles)?;
    Ok(Some(costs.of.items().to_vec(alloc)?))
}

#[test]
fn a_step_costs_its_class_its_registers_its_turn_and_its_fetch(
    rt: HostRuntime,
) -> Result<(), Fail> {
    let cycles = Cycles {
        alu: 1,
        mul: 3,
        div: 12,
        load: 2,
        store: 4,
        multi: 5,
        branch: 6,
        system: 10,
        taken: 20,
        per_register: 100,
        hit: 1000,
        miss: 3000,
    };
    let (hit, miss) = (Category::Hit, Category::Miss);
    let (unknown, none) = (Category::Unclassified, Category::NoCache);
    let categories = [hit, miss, unknown, none, hit, miss, unknown, none];
    let steps = [
        (0, false),
        (0, true),
        (1, false),
        (2, false),
        (3, true),
        (4, false),
        (5, true),
        (6, true),
        (7, false),
    ];
    let want = [1001, 1021, 3103, 3212, 322, 1404, 3525, 3626, 710];
    let got = of(rt.alloc(), &cycles, &categories, &steps)?;
    assert!(rt; got.is_some_and(|got| got.as_slice() == want.as_slice()));
    Ok(())
}
