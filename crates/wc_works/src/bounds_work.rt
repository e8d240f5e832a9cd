ghost use Rattle.std.specs.Prelude.{◌≡◌, IfOk};
ghost use Rattle.wc_core.specs.Boxes.{IsUsable};
ghost use Rattle.wc_model.specs.Workspace.Edits.{setting_of};
ghost use Rattle.wc_model.specs.Workspace.Feature.{BoundsFeature};
ghost use Rattle.wc_system.specs.Answers.{Answers};
ghost use Rattle.wc_works.specs.Required.{IsGiven};

use crate::passing::both;
use crate::required::{graph_in, kind, nest_in};
use std::alloc::{AllocError, Global};
use std::sync::Arc;
use wc_base::Trouble;
use wc_bounds::bounds;
use wc_core::{Given, Job, Processor};
use wc_model::{Bounds, Kind, Value};

/// The work of BOUNDS: the bound of each loop.
#[derive(Drop)]
pub struct BoundsWork {
    runs: u64,
}

impl BoundsWork {
    pub fn new() -> Self
        ensures { result.runs ≡ 0 }
    {
        BoundsWork { runs: 0 }
    }
}

// The bounds of the loops of the required nest.
fn bounds_for(alloc: Global, job: &Job, given: &Given<Value>) -> Result<Bounds, Trouble>
    requires { IsGiven job.now given.now 3 }
    ensures { Answers (BoundsFeature (setting_of job.now.inputs.value) job.now.name.value) result }
{
    match both(graph_in(given), nest_in(given)) {
        Ok((graph, nest)) => bounds(alloc, graph, nest, &job.inputs.facts),
        Err(fault) => Err(Trouble::Fault(fault)),
    }
}

fn value_for(alloc: Global, job: &Job, given: &Given<Value>) -> Result<Value, AllocError>
    requires { IsGiven job.now given.now 3 }
    ensures { IfOk result (IsUsable 3 (setting_of job.now.inputs.value) job.now.name.value) }
{
    match bounds_for(alloc, job, given) {
        Ok(bounds) => Ok(Value::Bounds(Ok(bounds))),
        Err(Trouble::Fault(fault)) => Ok(Value::Bounds(Err(fault))),
        Err(Trouble::Memory(error)) => Err(error),
    }
}

impl Processor for BoundsWork {
    ghost kind_is = { λ _. 3 };

    ghost runs_is = { λ w. w.runs };

    fn kind(&self) -> Kind {
        kind(3)
    }

    fn runs(&self) -> u64 {
        self.runs
    }

    fn run(
        &mut self,
        alloc: Global,
        job: &Job,
        given: &Given<Value>,
    ) -> Result<Arc<Value>, AllocError> {
        self.runs += 1;
        let value = value_for(alloc, job, given)?;
        Ok(Arc::new(alloc, value)?)
    }
}
