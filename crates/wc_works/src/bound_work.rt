ghost use Rattle.std.specs.Prelude.{◌≡◌, IfOk};
ghost use Rattle.wc_core.specs.Boxes.{IsUsable};
ghost use Rattle.wc_model.specs.Workspace.Edits.{setting_of};
ghost use Rattle.wc_model.specs.Workspace.Feature.{BoundFeature};
ghost use Rattle.wc_system.specs.Answers.{Answers};
ghost use Rattle.wc_works.specs.Required.{IsGiven};

use crate::optimum::bound_of;
use crate::passing::both;
use crate::required::{kind, solution_in, system_in};
use std::alloc::{AllocError, Global};
use std::sync::Arc;
use wc_base::Trouble;
use wc_core::{Given, Job, Processor};
use wc_model::{Kind, Value};

/// The work of BOUND: the bound in cycles.
#[derive(Drop)]
pub struct BoundWork {
    runs: u64,
}

impl BoundWork {
    pub fn new() -> Self
        ensures { result.runs ≡ 0 }
    {
        BoundWork { runs: 0 }
    }
}

// The bound that the required solution gives.
fn bound_for(alloc: Global, job: &Job, given: &Given<Value>) -> Result<u128, Trouble>
    requires { IsGiven job.now given.now 11 }
    ensures { Answers (BoundFeature (setting_of job.now.inputs.value) job.now.name.value) result }
{
    match both(system_in(given), solution_in(given)) {
        Ok((system, solution)) => Ok(bound_of(system, solution)),
        Err(fault) => Err(Trouble::Fault(fault)),
    }
}

fn value_for(alloc: Global, job: &Job, given: &Given<Value>) -> Result<Value, AllocError>
    requires { IsGiven job.now given.now 11 }
    ensures { IfOk result (IsUsable 11 (setting_of job.now.inputs.value) job.now.name.value) }
{
    match bound_for(alloc, job, given) {
        Ok(bound) => Ok(Value::Bound(Ok(bound))),
        Err(Trouble::Fault(fault)) => Ok(Value::Bound(Err(fault))),
        Err(Trouble::Memory(error)) => Err(error),
    }
}

impl Processor for BoundWork {
    ghost kind_is = { λ _. 11 };

    ghost runs_is = { λ w. w.runs };

    fn kind(&self) -> Kind {
        kind(11)
    }

    fn runs(&self) -> u64 {
        self.runs
    }

    fn run(
        &mut self,
        alloc: Global,
        job: &Job,
        given: &Given<Value>,
    ) -> Result<Arc<Value>, AllocError> {
        self.runs += 1;
        let value = value_for(alloc, job, given)?;
        Ok(Arc::new(alloc, value)?)
    }
}
