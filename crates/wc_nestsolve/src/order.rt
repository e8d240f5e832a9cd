ghost use Rattle.std.specs.Prelude.{◌≡◌, IfOk};
ghost use Rattle.wc_nestsolve.specs.Inner.Orders.{IsDownOrder, loose, loosened};
ghost use Rattle.wc_nestsolve.specs.Inner.Solvable.{IsSolvable};

use std::alloc::{AllocError, Global};
use wc_model::walks::{Order, order_nodes};
use wc_model::{Nest, System, SystemStep};

// A back step leads nowhere.
fn loosen(step: SystemStep, back: bool) -> SystemStep
    ensures { result ≡ loose back step }
{
    if back {
        return SystemStep {
            source: step.source,
            target: None,
            cost: step.cost,
        };
    }
    step
}

// The steps, without where the back steps lead.
fn ahead(alloc: Global, system: &System, nest: &Nest) -> Result<Vec<SystemStep>, AllocError>
    requires { IsSolvable nest.now system.now }
    ensures { IfOk result (λ v. v.items ≡ loosened nest.now.back system.now.steps) }
{
    let steps = system.steps.items();
    let backs = nest.back.items();
    let mut ahead = Vec::with_capacity(alloc, steps.len())?;
    for place in 0..steps.len() {
        let step = loosen(steps[place], backs[place]);
        ahead.push(step)?;
    }
    Ok(ahead)
}

/// All nodes, each after those that its steps ahead lead to.
pub fn order(alloc: Global, system: &System, nest: &Nest) -> Result<Vec<u32>, AllocError>
    requires { IsSolvable nest.now system.now }
    ensures { IfOk result (λ v. IsDownOrder system.now nest.now v.items) }
{
    let ahead = ahead(alloc, system, nest)?;
    match order_nodes(alloc, system.nodes, ahead.as_slice(), system.start)? {
        Order::Nodes(order) => Ok(order),
        Order::Cycle(_) => unreachable!(),
    }
}
