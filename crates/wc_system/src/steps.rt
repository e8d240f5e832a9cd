ghost use Rattle.std.specs.Prelude.{◌≡◌, IfOk, length};
ghost use Rattle.wc_model.specs.Flow.Systems.{system_steps};

use std::alloc::{AllocError, Global};
use wc_model::{Step, SystemStep};

/// The graph's steps, each with its cost.
pub fn costed_steps(
    alloc: Global,
    steps: &[Step],
    costs: &[u64],
) -> Result<Vec<SystemStep>, AllocError>
    requires { length costs.now ≡ length steps.now }
    ensures { IfOk result (λ v. v.items ≡ system_steps steps.now costs.now) }
{
    let mut costed = Vec::with_capacity(alloc, steps.len())?;
    for place in 0..steps.len() {
        costed.push(costed_step(&steps[place], costs[place]))?;
    }
    Ok(costed)
}

fn costed_step(step: &Step, cost: u64) -> SystemStep
    ensures { result ≡ record { source = step.now.source; target = step.now.target; cost = cost } }
{
    SystemStep {
        source: step.source,
        target: step.target,
        cost,
    }
}
