ghost use Rattle.std.specs.Prelude.{◌≡◌, IfOk};
ghost use Rattle.wc_core.specs.Boxes.{IsUsable};
ghost use Rattle.wc_model.specs.Workspace.Edits.{setting_of};
ghost use Rattle.wc_model.specs.Workspace.Feature.{CostFeature};
ghost use Rattle.wc_system.specs.Answers.{Answers};
ghost use Rattle.wc_works.specs.Required.{IsGiven};

use crate::passing::{both, unrefused};
use crate::required::{category_in, graph_in, kind};
use std::alloc::{AllocError, Global};
use std::sync::Arc;
use wc_base::Trouble;
use wc_core::{Given, Job, Processor};
use wc_cost::costs;
use wc_model::{Costs, Kind, Value};

/// The work of COST: what each step costs at most.
#[derive(Drop)]
pub struct CostWork {
    runs: u64,
}

impl CostWork {
    pub fn new() -> Self
        ensures { result.runs ≡ 0 }
    {
        CostWork { runs: 0 }
    }
}

// The costs of the steps of the required graph, by the categories of its nodes.
fn cost_for(alloc: Global, job: &Job, given: &Given<Value>) -> Result<Costs, Trouble>
    requires { IsGiven job.now given.now 8 }
    ensures { Answers (CostFeature (setting_of job.now.inputs.value) job.now.name.value) result }
{
    let cycles = &job.inputs.hardware.cycles;
    match both(graph_in(given), category_in(given)) {
        Ok((graph, categories)) => unrefused(costs(alloc, graph, categories.items(), cycles)),
        Err(fault) => Err(Trouble::Fault(fault)),
    }
}

fn value_for(alloc: Global, job: &Job, given: &Given<Value>) -> Result<Value, AllocError>
    requires { IsGiven job.now given.now 8 }
    ensures { IfOk result (IsUsable 8 (setting_of job.now.inputs.value) job.now.name.value) }
{
    match cost_for(alloc, job, given) {
        Ok(cost) => Ok(Value::Cost(Ok(cost))),
        Err(Trouble::Fault(fault)) => Ok(Value::Cost(Err(fault))),
        Err(Trouble::Memory(error)) => Err(error),
    }
}

impl Processor for CostWork {
    ghost kind_is = { λ _. 8 };

    ghost runs_is = { λ w. w.runs };

    fn kind(&self) -> Kind {
        kind(8)
    }

    fn runs(&self) -> u64 {
        self.runs
    }

    fn run(
        &mut self,
        alloc: Global,
        job: &Job,
        given: &Given<Value>,
    ) -> Result<Arc<Value>, AllocError> {
        self.runs += 1;
        let value = value_for(alloc, job, given)?;
        Ok(Arc::new(alloc, value)?)
    }
}
