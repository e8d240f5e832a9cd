ghost use Rattle.std.specs.Prelude.{◌<◌, IfOk};
ghost use Rattle.wc_model.specs.Flow.Ends.{system_ends};
ghost use Rattle.wc_model.specs.Flow.Walks.{AreSteps, IsGreatestFrom};

use crate::SystemStep;
use crate::walks::{Order, greatest_costs, order_nodes};
use std::alloc::{AllocError, Global};

/// The greatest cost of a walk from a node to the end, or `None` where no walk leads there; or a node that
/// is reached and reaches itself.
#[derive(Clone, Copy, Debug, PartialEq, Eq)]
pub enum Greatest {
    Cycle(u32),
    Cost(Option<u128>),
}

/// The greatest cost of a walk from `start` to the end, in time `n log n`.
pub fn greatest_from(
    alloc: Global,
    nodes: u32,
    steps: &[SystemStep],
    start: u32,
) -> Result<Greatest, AllocError>
    requires steps { AreSteps system_ends nodes steps.now }
    requires start { start < nodes }
    ensures { IfOk result (IsGreatestFrom steps.now start) }
{
    match order_nodes(alloc, nodes, steps, start)? {
        Order::Cycle(node) => Ok(Greatest::Cycle(node)),
        Order::Nodes(order) => {
            let best = greatest_costs(alloc, nodes, steps, order.as_slice())?;
            Ok(Greatest::Cost(best[start as usize]))
        }
    }
}
