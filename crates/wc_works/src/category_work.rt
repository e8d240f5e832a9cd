ghost use Rattle.std.specs.Prelude.{◌≡◌, IfOk, IsTrue, length};
ghost use Rattle.wc_model.specs.Cache.Categories.{are_flags_for, categories_of};
ghost use Rattle.wc_model.specs.Program.Graphs.{IsGraph};
ghost use Rattle.wc_core.specs.Boxes.{IsUsable};
ghost use Rattle.wc_model.specs.Workspace.Edits.{setting_of};
ghost use Rattle.wc_model.specs.Workspace.Feature.{CategoryFeature};
ghost use Rattle.wc_system.specs.Answers.{Answers};
ghost use Rattle.wc_works.specs.Required.{IsGiven};

use crate::passing::{both, unrefused};
use crate::required::{graph_in, kind, lines_in, may_in, must_in};
use std::alloc::{AllocError, Global};
use std::sync::Arc;
use wc_base::Trouble;
use wc_category::categories;
use wc_core::{Given, Job, Processor};
use wc_model::{Category, Flags, Graph, Kind, Table, Value};

/// The work of CATEGORY: what is known of the fetch at each node.
#[derive(Drop)]
pub struct CategoryWork {
    runs: u64,
}

impl CategoryWork {
    pub fn new() -> Self
        ensures { result.runs ≡ 0 }
    {
        CategoryWork { runs: 0 }
    }
}

fn categories_by(
    alloc: Global,
    graph: &Graph,
    must: &Flags,
    may: &Flags,
) -> Result<Table<Category>, AllocError>
    requires graph { IsGraph graph.now }
    requires flags { IsTrue (are_flags_for (length graph.now.nodes) must.now.yes may.now.yes) }
    ensures { IfOk result (λ v. v ≡ categories_of (length graph.now.nodes) must.now.yes may.now.yes) }
{
    let nodes = graph.nodes.items().len() as u32;
    Ok(Table::new(categories(alloc, nodes, must, may)?))
}

// The categories of the nodes of the required graph, by the flags of must and may.
fn category_for(alloc: Global, job: &Job, given: &Given<Value>) -> Result<Table<Category>, Trouble>
    requires { IsGiven job.now given.now 7 }
    ensures { Answers (CategoryFeature (setting_of job.now.inputs.value) job.now.name.value) result }
{
    let lined = both(graph_in(given), lines_in(given));
    let must = both(lined, must_in(given));
    match both(must, may_in(given)) {
        Ok((((graph, _map), must), may)) => unrefused(categories_by(alloc, graph, must, may)),
        Err(fault) => Err(Trouble::Fault(fault)),
    }
}

fn value_for(alloc: Global, job: &Job, given: &Given<Value>) -> Result<Value, AllocError>
    requires { IsGiven job.now given.now 7 }
    ensures { IfOk result (IsUsable 7 (setting_of job.now.inputs.value) job.now.name.value) }
{
    match category_for(alloc, job, given) {
        Ok(category) => Ok(Value::Category(Ok(category))),
        Err(Trouble::Fault(fault)) => Ok(Value::Category(Err(fault))),
        Err(Trouble::Memory(error)) => Err(error),
    }
}

impl Processor for CategoryWork {
    ghost kind_is = { λ _. 7 };

    ghost runs_is = { λ w. w.runs };

    fn kind(&self) -> Kind {
        kind(7)
    }

    fn runs(&self) -> u64 {
        self.runs
    }

    fn run(
        &mut self,
        alloc: Global,
        job: &Job,
        given: &Given<Value>,
    ) -> Result<Arc<Value>, AllocError> {
        self.runs += 1;
        let value = value_for(alloc, job, given)?;
        Ok(Arc::new(alloc, value)?)
    }
}
