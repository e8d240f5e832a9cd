ghost use Rattle.std.specs.Prelude.{◌≡◌, IfOk};
ghost use Rattle.wc_core.specs.Boxes.{IsUsable};
ghost use Rattle.wc_model.specs.Workspace.Edits.{setting_of};
ghost use Rattle.wc_model.specs.Workspace.Feature.{SolutionFeature};
ghost use Rattle.wc_system.specs.Answers.{Answers};
ghost use Rattle.wc_works.specs.Required.{IsGiven};

use crate::optimum::solution_of;
use crate::passing::both;
use crate::required::{graph_in, kind, nest_in, system_in};
use std::alloc::{AllocError, Global};
use std::sync::Arc;
use wc_base::Trouble;
use wc_core::{Given, Job, Processor};
use wc_model::{Kind, Solution, Value};

/// The work of SOLUTION: the optimum of the flow system, with its certificate.
#[derive(Drop)]
pub struct SolutionWork {
    runs: u64,
}

impl SolutionWork {
    pub fn new() -> Self
        ensures { result.runs ≡ 0 }
    {
        SolutionWork { runs: 0 }
    }
}

// The solution of the required system.
fn solution_for(alloc: Global, job: &Job, given: &Given<Value>) -> Result<Solution, Trouble>
    requires { IsGiven job.now given.now 10 }
    ensures { Answers (SolutionFeature (setting_of job.now.inputs.value) job.now.name.value) result }
{
    let nested = both(graph_in(given), nest_in(given));
    match both(nested, system_in(given)) {
        Ok(((graph, nest), system)) => solution_of(alloc, graph, nest, system),
        Err(fault) => Err(Trouble::Fault(fault)),
    }
}

fn value_for(alloc: Global, job: &Job, given: &Given<Value>) -> Result<Value, AllocError>
    requires { IsGiven job.now given.now 10 }
    ensures { IfOk result (IsUsable 10 (setting_of job.now.inputs.value) job.now.name.value) }
{
    match solution_for(alloc, job, given) {
        Ok(solution) => Ok(Value::Solution(Ok(solution))),
        Err(Trouble::Fault(fault)) => Ok(Value::Solution(Err(fault))),
        Err(Trouble::Memory(error)) => Err(error),
    }
}

impl Processor for SolutionWork {
    ghost kind_is = { λ _. 10 };

    ghost runs_is = { λ w. w.runs };

    fn kind(&self) -> Kind {
        kind(10)
    }

    fn runs(&self) -> u64 {
        self.runs
    }

    fn run(
        &mut self,
        alloc: Global,
        job: &Job,
        given: &Given<Value>,
    ) -> Result<Arc<Value>, AllocError> {
        self.runs += 1;
        let value = value_for(alloc, job, given)?;
        Ok(Arc::new(alloc, value)?)
    }
}
