ghost use Rattle.std.specs.Prelude.{◌≡◌, IfOk};
ghost use Rattle.wc_core.specs.Boxes.{IsUsable};
ghost use Rattle.wc_model.specs.Flow.Systems.{IsSystem};
ghost use Rattle.wc_model.specs.Workspace.Edits.{setting_of};
ghost use Rattle.wc_model.specs.Workspace.Feature.{SystemFeature};
ghost use Rattle.wc_system.specs.Answers.{Answers};
ghost use Rattle.wc_works.specs.Required.{IsGiven};

use crate::passing::both;
use crate::required::{bounds_in, cost_in, graph_in, kind, nest_in};
use std::alloc::{AllocError, Global};
use std::sync::Arc;
use wc_base::Trouble;
use wc_core::{Given, Job, Processor};
use wc_model::{Kind, System, Value};
use wc_system::system;

/// The work of SYSTEM: the flow system.
#[derive(Drop)]
pub struct SystemWork {
    runs: u64,
}

impl SystemWork {
    pub fn new() -> Self
        ensures { result.runs ≡ 0 }
    {
        SystemWork { runs: 0 }
    }
}

// The flow system of the required graph, nest, bounds and costs.
fn system_for(alloc: Global, job: &Job, given: &Given<Value>) -> Result<System, Trouble>
    requires { IsGiven job.now given.now 9 }
    ensures feature { Answers (SystemFeature (setting_of job.now.inputs.value) job.now.name.value) result }
    ensures numbers { IfOk result IsSystem }
{
    let nested = both(graph_in(given), nest_in(given));
    let bounded = both(nested, bounds_in(given));
    match both(bounded, cost_in(given)) {
        Ok((((graph, nest), bounds), costs)) => {
            system(alloc, graph, nest, bounds, costs, &job.inputs.facts)
        }
        Err(fault) => Err(Trouble::Fault(fault)),
    }
}

fn value_for(alloc: Global, job: &Job, given: &Given<Value>) -> Result<Value, AllocError>
    requires { IsGiven job.now given.now 9 }
    ensures { IfOk result (IsUsable 9 (setting_of job.now.inputs.value) job.now.name.value) }
{
    match system_for(alloc, job, given) {
        Ok(system) => Ok(Value::System(Ok(system))),
        Err(Trouble::Fault(fault)) => Ok(Value::System(Err(fault))),
        Err(Trouble::Memory(error)) => Err(error),
    }
}

impl Processor for SystemWork {
    ghost kind_is = { λ _. 9 };

    ghost runs_is = { λ w. w.runs };

    fn kind(&self) -> Kind {
        kind(9)
    }

    fn runs(&self) -> u64 {
        self.runs
    }

    fn run(
        &mut self,
        alloc: Global,
        job: &Job,
        given: &Given<Value>,
    ) -> Result<Arc<Value>, AllocError> {
        self.runs += 1;
        let value = value_for(alloc, job, given)?;
        Ok(Arc::new(alloc, value)?)
    }
}
