ghost use Rattle.std.specs.Prelude.{◌≡◌, ◌<◌, IfSome, IsFalse, IsTrue};
ghost use Rattle.wc_model.specs.Flow.Ends.{system_ends};
ghost use Rattle.wc_model.specs.Flow.Walks.{AreSteps};

use crate::SystemStep;
use crate::walks::{Greatest, greatest_from};
use std::alloc::{AllocError, Global};
use std::test::Fail;

// Whether the steps lead between the nodes, in the order of their sources.
fn are_steps(nodes: u32, steps: &[SystemStep]) -> bool
    ensures { IsTrue result → AreSteps system_ends nodes steps.now }
{
    let mut last = 0;
    for step in steps {
        if step.source < last || nodes <= step.source || leaves(nodes, step.target) {
            return false;
        }
        last = step.source;
    }
    true
}

fn leaves(nodes: u32, target: Option<u32>) -> bool
    ensures { IsFalse result → IfSome target (λ q. q < nodes) }
{
    match target {
        None => false,
        Some(node) => nodes <= node,
    }
}

// The greatest cost from node 0, over (source, target, cost); `None` where these aren't steps in order.
fn greatest(
    alloc: Global,
    nodes: u32,
    steps: &[(u32, Option<u32>, u64)],
) -> Result<Option<Greatest>, AllocError> {
    let mut system = Vec::new(alloc);
    for (source, target, cost) in steps {
        system.push(SystemStep {
            source: *source,
            target: *target,
            cost: *cost,
        })?;
    }
    if nodes == 0 || !are_steps(nodes, system.as_slice()) {
        return Ok(None);
    }
    Ok(Some(greatest_from(alloc, nodes, system.as_slice(), 0)?))
}

#[test]
fn small_graphs(rt: HostRuntime) -> Result<(), AllocError> {
    let alloc = rt.alloc();
    let end: Option<u32> = None;
    // the dearer of two ways, where the later step is cheaper
    let ways = [(0, Some(1), 5), (0, Some(2), 1), (1, end, 1), (2, end, 4)];
    assert!(rt; greatest(alloc, 3, &ways)? == Some(Greatest::Cost(Some(6))));
    // a node whose only way is itself, beside one that ends
    let itself = [(0, Some(0), 1), (0, end, 1)];
    assert!(rt; greatest(alloc, 1, &itself)? == Some(Greatest::Cycle(0)));
    // a cycle beside an exit
    let cycle = [
        (0, Some(1), 1),
        (1, Some(2), 1),
        (1, end, 9),
        (2, Some(1), 1),
    ];
    assert!(rt; greatest(alloc, 3, &cycle)? == Some(Greatest::Cycle(1)));
    // a cycle that isn't reached
    let apart = [(0, end, 7), (1, Some(2), 1), (2, Some(1), 1)];
    assert!(rt; greatest(alloc, 3, &apart)? == Some(Greatest::Cost(Some(7))));
    // a dead end, and one beside an end
    let dead = [(0, Some(1), 3)];
    assert!(rt; greatest(alloc, 2, &dead)? == Some(Greatest::Cost(None)));
    let beside = [(0, Some(1), 9), (0, end, 2)];
    assert!(rt; greatest(alloc, 2, &beside)? == Some(Greatest::Cost(Some(2))));
    Ok(())
}

// 40 branches one after the other have 2^40 paths; each costs at most 2 a branch.
#[test]
fn a_chain_of_branches_is_answered_at_once(rt: HostRuntime) -> Result<(), AllocError> {
    let alloc = rt.alloc();
    let mut steps = Vec::new(alloc);
    for branch in 0..40u32 {
        let node = 3 * branch;
        steps.push((node, Some(node + 1), 1))?;
        steps.push((node, Some(node + 2), 1))?;
        steps.push((node + 1, Some(node + 3), 0))?;
        steps.push((node + 2, Some(node + 3), 1))?;
    }
    steps.push((120, None, 5))?;
    assert!(rt; greatest(alloc, 121, steps.as_slice())? == Some(Greatest::Cost(Some(85))));
    Ok(())
}
