ghost use Rattle.std.specs.Prelude.{ℕ, ◌≡◌, ◌+◌, ◌-◌, ◌<◌, ◌^◌, List, Option, IfOk};
ghost use Rattle.std.specs.Arc.{arc_value};
ghost use Rattle.wc_model.specs.declared.kinds.Describe.{Describe};
ghost use Rattle.wc_model.specs.declared.values.Outcome.{Outcome};
ghost use Rattle.wc_model.specs.Workspace.Closures.{closure};
ghost use Rattle.wc_model.specs.Workspace.Edits.{Setting, setting_of, AgreeOnAll};
ghost use Rattle.wc_core.specs.Features.{HasRequired, Tells};

use crate::given::Given;
use std::alloc::{AllocError, Global};
use std::sync::Arc;
use wc_model::{Inputs, Kind, Outcome, Text};

/// What a run is for: the inputs and the name that is asked for.
#[derive(Debug, Drop)]
pub struct Job {
    pub inputs: Arc<Inputs>,
    pub name: Arc<Text>,
}

/// A work computes the feature of one kind. `W::described` is the list of descriptions that its laws speak of.
pub trait Work: Drop {
    type Value: Drop + Send + Sync;

    ghost kind_of: { Self → ℕ };

    ghost runs_of: { Self → ℕ };

    ghost described: { List Describe };

    ghost is_feature: { ℕ → Setting → List ℕ → Self.Value → Type 0 };

    ghost outcome_of: { Self.Value → Option Outcome };

    ghost chain: { Setting → List ℕ → Outcome → Type 0 };

    fn kind(&self) -> Kind
        ensures { result ≡ kind_of self.now };

    fn runs(&self) -> u64
        ensures { result ≡ runs_of self.now };

    fn run(
        &mut self,
        alloc: Global,
        job: &Job,
        given: &Given<Self::Value>,
    ) -> Result<Arc<Self::Value>, AllocError>
        requires room { runs_of self.old < 2 ^ 64 - 1 }
        requires given { HasRequired described (λ k v. is_feature k (setting_of job.now.inputs.value) job.now.name.value v) (kind_of self.old) given.now }
        ensures kind { kind_of self.new ≡ kind_of self.old }
        ensures runs { runs_of self.new ≡ runs_of self.old + 1 }
        ensures feature { IfOk result (λ v. is_feature (kind_of self.old) (setting_of job.now.inputs.value) job.now.name.value (arc_value v)) };

    fn outcome(value: &Self::Value) -> Option<Outcome>
        ensures { result ≡ outcome_of value.now };

    ghost stable: { (k : ℕ) (a b : Setting) (name : List ℕ) (v : Self.Value) → AgreeOnAll a b (closure described k) → is_feature k a name v → is_feature k b name v };

    ghost tells: { (i : Setting) (name : List ℕ) (v : Self.Value) → is_feature 11 i name v → Tells (chain i name) (outcome_of v) };
}
