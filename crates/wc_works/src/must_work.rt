ghost use Rattle.std.specs.Prelude.{◌≡◌, IfOk};
ghost use Rattle.wc_core.specs.Boxes.{IsUsable};
ghost use Rattle.wc_model.specs.Workspace.Edits.{setting_of};
ghost use Rattle.wc_model.specs.Workspace.Feature.{MustFeature};
ghost use Rattle.wc_system.specs.Answers.{Answers};
ghost use Rattle.wc_works.specs.Required.{IsGiven};

use crate::handle::Handle;
use crate::passing::{both, unrefused};
use crate::required::{graph_in, kind, lines_in};
use std::alloc::{AllocError, Global};
use std::sync::Arc;
use std::thread::Threads;
use wc_base::Trouble;
use wc_core::{Given, Job, Processor};
use wc_model::{Flags, Kind, Value};
use wc_mustmay::must;

/// The work of MUST: whether the line of each node is surely in the cache.
#[derive(Drop)]
pub struct MustWork<R: Threads + Sync + Send + Drop> {
    rt: R,
    runs: u64,
}

impl<R: Threads + Sync + Send + Drop> MustWork<R> {
    pub fn new(rt: R) -> Self
        ensures { result.runs ≡ 0 }
    {
        MustWork { rt, runs: 0 }
    }
}

// The flags of the required graph, by its lines.
fn must_for<R: Threads + Sync>(
    rt: &R,
    alloc: Global,
    job: &Job,
    given: &Given<Value>,
) -> Result<Flags, Trouble>
    requires { IsGiven job.now given.now 5 }
    ensures { Answers (MustFeature (setting_of job.now.inputs.value) job.now.name.value) result }
{
    let cache = job.inputs.hardware.cache.as_ref();
    match both(graph_in(given), lines_in(given)) {
        Ok((graph, map)) => unrefused(must(rt, alloc, graph, map, cache)),
        Err(fault) => Err(Trouble::Fault(fault)),
    }
}

fn value_for<R: Threads + Sync>(
    rt: &R,
    alloc: Global,
    job: &Job,
    given: &Given<Value>,
) -> Result<Value, AllocError>
    requires { IsGiven job.now given.now 5 }
    ensures { IfOk result (IsUsable 5 (setting_of job.now.inputs.value) job.now.name.value) }
{
    match must_for(rt, alloc, job, given) {
        Ok(must) => Ok(Value::Must(Ok(must))),
        Err(Trouble::Fault(fault)) => Ok(Value::Must(Err(fault))),
        Err(Trouble::Memory(error)) => Err(error),
    }
}

impl<R: Threads + Sync + Send + Drop> Processor for MustWork<R> {
    ghost kind_is = { λ _. 5 };

    ghost runs_is = { λ w. w.runs };

    fn kind(&self) -> Kind {
        kind(5)
    }

    fn runs(&self) -> u64 {
        self.runs
    }

    fn run(
        &mut self,
        alloc: Global,
        job: &Job,
        given: &Given<Value>,
    ) -> Result<Arc<Value>, AllocError> {
        self.runs += 1;
        let value = value_for(&Handle::of(&self.rt), alloc, job, given)?;
        Ok(Arc::new(alloc, value)?)
    }
}
