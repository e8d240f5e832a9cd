ghost use Rattle.std.specs.Prelude.{◌≡◌, IfOk};
ghost use Rattle.wc_core.specs.Boxes.{IsUsable};
ghost use Rattle.wc_model.specs.Workspace.Edits.{setting_of};
ghost use Rattle.wc_model.specs.Workspace.Feature.{NestFeature};
ghost use Rattle.wc_system.specs.Answers.{Answers};
ghost use Rattle.wc_works.specs.Required.{IsGiven};

use crate::required::{graph_in, kind};
use std::alloc::{AllocError, Global};
use std::sync::Arc;
use wc_base::Trouble;
use wc_core::{Given, Job, Processor};
use wc_model::{Kind, Nest, Value};
use wc_nest::nest;

/// The work of NEST: the loop nest of the graph.
#[derive(Drop)]
pub struct NestWork {
    runs: u64,
}

impl NestWork {
    pub fn new() -> Self
        ensures { result.runs ≡ 0 }
    {
        NestWork { runs: 0 }
    }
}

// The nest of the required graph.
fn nest_for(alloc: Global, job: &Job, given: &Given<Value>) -> Result<Nest, Trouble>
    requires { IsGiven job.now given.now 2 }
    ensures { Answers (NestFeature (setting_of job.now.inputs.value) job.now.name.value) result }
{
    match graph_in(given) {
        Ok(graph) => nest(alloc, graph),
        Err(fault) => Err(Trouble::Fault(fault)),
    }
}

fn value_for(alloc: Global, job: &Job, given: &Given<Value>) -> Result<Value, AllocError>
    requires { IsGiven job.now given.now 2 }
    ensures { IfOk result (IsUsable 2 (setting_of job.now.inputs.value) job.now.name.value) }
{
    match nest_for(alloc, job, given) {
        Ok(nest) => Ok(Value::Nest(Ok(nest))),
        Err(Trouble::Fault(fault)) => Ok(Value::Nest(Err(fault))),
        Err(Trouble::Memory(error)) => Err(error),
    }
}

impl Processor for NestWork {
    ghost kind_is = { λ _. 2 };

    ghost runs_is = { λ w. w.runs };

    fn kind(&self) -> Kind {
        kind(2)
    }

    fn runs(&self) -> u64 {
        self.runs
    }

    fn run(
        &mut self,
        alloc: Global,
        job: &Job,
        given: &Given<Value>,
    ) -> Result<Arc<Value>, AllocError> {
        self.runs += 1;
        let value = value_for(alloc, job, given)?;
        Ok(Arc::new(alloc, value)?)
    }
}
