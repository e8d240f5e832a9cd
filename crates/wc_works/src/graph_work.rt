ghost use Rattle.std.specs.Prelude.{ℕ, ◌≡◌, List, IfOk};
ghost use Rattle.wc_core.specs.Boxes.{IsUsable};
ghost use Rattle.wc_model.specs.Program.Graphs.{IsGraph};
ghost use Rattle.wc_model.specs.Workspace.Edits.{Setting, setting_of};
ghost use Rattle.wc_model.specs.Workspace.Feature.{GraphFeature};
ghost use Rattle.wc_system.specs.Answers.{Answers};
ghost use Rattle.wc_works.specs.Required.{IsGiven};

use crate::required::kind;
use std::alloc::{AllocError, Global};
use std::sync::Arc;
use wc_base::Trouble;
use wc_core::{Given, Job, Processor};
use wc_elf::find;
use wc_graph::build;
use wc_model::{Facts, Graph, Image, Kind, Value};

/// The work of GRAPH: the function that the name means, and its control flow graph.
#[derive(Drop)]
pub struct GraphWork {
    runs: u64,
}

impl GraphWork {
    pub fn new() -> Self
        ensures { result.runs ≡ 0 }
    {
        GraphWork { runs: 0 }
    }
}

// The graph of the function that a name means in a binary, by facts of its code.
fn graph_of(alloc: Global, image: &Image, facts: &Facts, name: &[u8]) -> Result<Graph, Trouble>
    ensures feature { (inputs : Setting) (called : List ℕ) → inputs.image ≡ image.now → inputs.facts ≡ facts.now → called ≡ name.now → Answers (GraphFeature inputs called) result }
    ensures numbers { IfOk result IsGraph }
{
    match find(image, name) {
        Ok(entry) => build(alloc, image, facts, entry),
        Err(fault) => Err(Trouble::Fault(fault)),
    }
}

// The graph of the function that the job's name means.
fn graph_for(alloc: Global, job: &Job, given: &Given<Value>) -> Result<Graph, Trouble>
    requires { IsGiven job.now given.now 1 }
    ensures feature { Answers (GraphFeature (setting_of job.now.inputs.value) job.now.name.value) result }
    ensures numbers { IfOk result IsGraph }
{
    graph_of(
        alloc,
        &job.inputs.image,
        &job.inputs.facts,
        job.name.items(),
    )
}

fn value_for(alloc: Global, job: &Job, given: &Given<Value>) -> Result<Value, AllocError>
    requires { IsGiven job.now given.now 1 }
    ensures { IfOk result (IsUsable 1 (setting_of job.now.inputs.value) job.now.name.value) }
{
    match graph_for(alloc, job, given) {
        Ok(graph) => Ok(Value::Graph(Ok(graph))),
        Err(Trouble::Fault(fault)) => Ok(Value::Graph(Err(fault))),
        Err(Trouble::Memory(error)) => Err(error),
    }
}

impl Processor for GraphWork {
    ghost kind_is = { λ _. 1 };

    ghost runs_is = { λ w. w.runs };

    fn kind(&self) -> Kind {
        kind(1)
    }

    fn runs(&self) -> u64 {
        self.runs
    }

    fn run(
        &mut self,
        alloc: Global,
        job: &Job,
        given: &Given<Value>,
    ) -> Result<Arc<Value>, AllocError> {
        self.runs += 1;
        let value = value_for(alloc, job, given)?;
        Ok(Arc::new(alloc, value)?)
    }
}
