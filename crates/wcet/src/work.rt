ghost use Rattle.std.specs.Prelude.{◌≡◌, ◌∷◌, [], Some, IfOk};
ghost use Rattle.wcet.specs.BoundAlone.{bound_alone};
ghost use Rattle.wcet.specs.Feature.{outcome_of as outcome_of_bound};
ghost use Rattle.wc_model.specs.Workspace.History.{bound_kind as bound_kind_of};

use crate::chain::chain;
use std::alloc::{AllocError, Global};
use std::marker::PhantomData;
use std::sync::Arc;
use std::thread::Threads;
use wc_base::Fault;
use wc_core::{Given, Job, Work};
use wc_model::{Describe, Kind, Outcome, Part, Table};
use wc_registry::{Registry, RegistryFault};

// The right of a runtime to start threads, without the runtime. It has no bytes, so that every thread may see it.
#[derive(Drop)]
struct Handle<R: Threads> {
    of: PhantomData<R>,
}

impl<R: Threads> Threads for Handle<R> {}

impl<R: Threads> Handle<R> {
    fn of(_rt: &R) -> Handle<R> {
        Handle { of: PhantomData }
    }
}

/// The work of a workspace that computes bounds alone: it runs the whole chain, and holds the runtime for it.
#[derive(Drop)]
pub struct ChainWork<'a, R: Threads + Sync> {
    rt: &'a R,
    runs: u64,
}

impl<'a, R: Threads + Sync> ChainWork<'a, R> {
    pub fn new(rt: &'a R) -> Self
        ensures { result.runs ≡ 0 }
    {
        ChainWork { rt, runs: 0 }
    }
}

/// The kind of the bound.
pub fn bound_kind() -> Kind
    ensures { result ≡ bound_kind_of }
{
    match Kind::new(11) {
        Some(kind) => kind,
        None => unreachable!(),
    }
}

// A bound, or the reason why there is none.
fn bound_of(outcome: Outcome) -> Result<Result<u128, Fault>, AllocError>
    ensures { IfOk result (λ bound. outcome_of_bound bound ≡ outcome) }
{
    match outcome {
        Outcome::Bound(cycles) => Ok(Ok(cycles)),
        Outcome::Fault(fault) => Ok(Err(fault)),
        Outcome::Memory => Err(AllocError),
    }
}

impl<'a, R: Threads + Sync> Work for ChainWork<'a, R> {
    type Value = Result<u128, Fault>;

    ghost use Rattle.std.specs.Prelude.{◌∷◌, [], Some};
    ghost use Rattle.wcet.specs.BoundAlone.{bound_alone};
    ghost use Rattle.wc_model.specs.Workspace.History.{bound_kind as bound_kind_of};
    ghost use Rattle.wcet.specs.Agreeing.{stable_feature, feature_tells};
    ghost use Rattle.wc_model.specs.Workspace.Chain.{chain as chain_of};
    ghost use Rattle.wcet.specs.Feature.{IsFeature, outcome_of as outcome_of_bound};

    ghost kind_of = { λ _. bound_kind_of };

    ghost runs_of = { λ w. w.runs };

    ghost described = { bound_alone ∷ [] };

    ghost is_feature = { IsFeature };

    ghost outcome_of = { λ bound. Some (outcome_of_bound bound) };

    ghost chain = { chain_of };

    fn kind(&self) -> Kind {
        bound_kind()
    }

    fn runs(&self) -> u64 {
        self.runs
    }

    fn run(
        &mut self,
        alloc: Global,
        job: &Job,
        _given: &Given<Result<u128, Fault>>,
    ) -> Result<Arc<Result<u128, Fault>>, AllocError> {
        self.runs += 1;
        let inputs = &job.inputs;
        let outcome = chain(
            &Handle::of(self.rt),
            alloc,
            &inputs.image,
            &inputs.facts,
            &inputs.hardware,
            job.name.items(),
        )?;
        Ok(Arc::new(alloc, bound_of(outcome)?)?)
    }

    fn outcome(bound: &Result<u128, Fault>) -> Option<Outcome>
        ensures { result ≡ Some (outcome_of_bound bound.now) }
    {
        match bound {
            Ok(cycles) => Some(Outcome::Bound(*cycles)),
            Err(fault) => Some(Outcome::Fault(*fault)),
        }
    }

    ghost stable = { stable_feature };

    ghost tells = { feature_tells };
}

// The one description of such a workspace: the bound requires nothing and reads all parts.
fn bound_describes(alloc: Global) -> Result<Vec<Describe>, AllocError>
    ensures { IfOk result (λ ds. ds.items ≡ bound_alone ∷ []) }
{
    let mut reads = Vec::new(alloc);
    reads.push(Part::Steer)?;
    reads.push(Part::Loops)?;
    reads.push(Part::Limits)?;
    reads.push(Part::Cache)?;
    reads.push(Part::Cycles)?;
    let mut list = Vec::new(alloc);
    list.push(Describe {
        provides: bound_kind(),
        requires_: Table::new(Vec::new(alloc)),
        reads: Table::new(reads),
    })?;
    Ok(list)
}

/// The registry of that one kind.
pub fn bound_registry(alloc: Global) -> Result<Registry, AllocError>
    ensures { IfOk result (λ r. r ≡ bound_alone ∷ []) }
{
    match Registry::new(alloc, bound_describes(alloc)?) {
        Ok(registry) => Ok(registry),
        Err(RegistryFault::Memory(error)) => Err(error),
        Err(RegistryFault::Double(_)) => unreachable!(),
        Err(RegistryFault::Missing(_)) => unreachable!(),
        Err(RegistryFault::Cycle(_)) => unreachable!(),
    }
}
