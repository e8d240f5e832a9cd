ghost use Rattle.std.specs.Prelude.{◌≡◌, IfOk};
ghost use Rattle.wc_core.specs.Boxes.{IsUsable};
ghost use Rattle.wc_model.specs.Workspace.Edits.{setting_of};
ghost use Rattle.wc_model.specs.Workspace.Feature.{LinesFeature};
ghost use Rattle.wc_system.specs.Answers.{Answers};
ghost use Rattle.wc_works.specs.Required.{IsGiven};

use crate::passing::unrefused;
use crate::required::{graph_in, kind};
use std::alloc::{AllocError, Global};
use std::sync::Arc;
use wc_base::Trouble;
use wc_core::{Given, Job, Processor};
use wc_lines::lines;
use wc_model::{Kind, LineMap, Value};

/// The work of LINES: the cache line of each node.
#[derive(Drop)]
pub struct LinesWork {
    runs: u64,
}

impl LinesWork {
    pub fn new() -> Self
        ensures { result.runs ≡ 0 }
    {
        LinesWork { runs: 0 }
    }
}

// The lines of the nodes of the required graph.
fn lines_for(alloc: Global, job: &Job, given: &Given<Value>) -> Result<LineMap, Trouble>
    requires { IsGiven job.now given.now 4 }
    ensures { Answers (LinesFeature (setting_of job.now.inputs.value) job.now.name.value) result }
{
    match graph_in(given) {
        Ok(graph) => unrefused(lines(alloc, graph, job.inputs.hardware.cache.as_ref())),
        Err(fault) => Err(Trouble::Fault(fault)),
    }
}

fn value_for(alloc: Global, job: &Job, given: &Given<Value>) -> Result<Value, AllocError>
    requires { IsGiven job.now given.now 4 }
    ensures { IfOk result (IsUsable 4 (setting_of job.now.inputs.value) job.now.name.value) }
{
    match lines_for(alloc, job, given) {
        Ok(lines) => Ok(Value::Lines(Ok(lines))),
        Err(Trouble::Fault(fault)) => Ok(Value::Lines(Err(fault))),
        Err(Trouble::Memory(error)) => Err(error),
    }
}

impl Processor for LinesWork {
    ghost kind_is = { λ _. 4 };

    ghost runs_is = { λ w. w.runs };

    fn kind(&self) -> Kind {
        kind(4)
    }

    fn runs(&self) -> u64 {
        self.runs
    }

    fn run(
        &mut self,
        alloc: Global,
        job: &Job,
        given: &Given<Value>,
    ) -> Result<Arc<Value>, AllocError> {
        self.runs += 1;
        let value = value_for(alloc, job, given)?;
        Ok(Arc::new(alloc, value)?)
    }
}
