ghost use Rattle.std.specs.Prelude.{ℕ, ◌≡◌, ◌+◌, ◌-◌, ◌<◌, ◌^◌, IfOk};
ghost use Rattle.std.specs.Arc.{arc_value};
ghost use Rattle.wc_model.specs.Workspace.Edits.{setting_of};
ghost use Rattle.wc_model.specs.Workspace.Feature.{outcome_of as outcome_of_value};
ghost use Rattle.wc_model.specs.Workspace.Kinds.{eleven_kinds};
ghost use Rattle.wc_core.specs.Boxes.{IsUsable};
ghost use Rattle.wc_core.specs.Features.{HasRequired};

use crate::given::Given;
use crate::work::{Job, Work};
use std::alloc::{AllocError, Global};
use std::sync::Arc;
use wc_model::{Kind, Outcome, Value};

/// A work that stands in a box beside others: it computes the feature of one of the eleven kinds, as a `Value`.
pub trait Processor: Drop {
    ghost kind_is: { Self → ℕ };

    ghost runs_is: { Self → ℕ };

    fn kind(&self) -> Kind
        ensures { result ≡ kind_is self.now };

    fn runs(&self) -> u64
        ensures { result ≡ runs_is self.now };

    fn run(
        &mut self,
        alloc: Global,
        job: &Job,
        given: &Given<Value>,
    ) -> Result<Arc<Value>, AllocError>
        requires room { runs_is self.old < 2 ^ 64 - 1 }
        requires given { HasRequired eleven_kinds (λ k v. IsUsable k (setting_of job.now.inputs.value) job.now.name.value v) (kind_is self.old) given.now }
        ensures kind { kind_is self.new ≡ kind_is self.old }
        ensures runs { runs_is self.new ≡ runs_is self.old + 1 }
        ensures feature { IfOk result (λ v. IsUsable (kind_is self.old) (setting_of job.now.inputs.value) job.now.name.value (arc_value v)) };
}

impl Work for Box<dyn Processor + Send> {
    type Value = Value;

    ghost use Rattle.wc_model.specs.Workspace.Chain.{chain as chain_of};
    ghost use Rattle.wc_model.specs.Workspace.Feature.{outcome_of as outcome_of_value};
    ghost use Rattle.wc_model.specs.Workspace.Kinds.{eleven_kinds};
    ghost use Rattle.wc_core.specs.Boxes.{IsUsable, stable as stable_feature, tells as feature_tells};

    ghost kind_of = { λ b. (Processor-box b).kind_is b.value };

    ghost runs_of = { λ b. (Processor-box b).runs_is b.value };

    ghost described = { eleven_kinds };

    ghost is_feature = { IsUsable };

    ghost outcome_of = { outcome_of_value };

    ghost chain = { chain_of };

    fn kind(&self) -> Kind {
        (**self).kind()
    }

    fn runs(&self) -> u64 {
        (**self).runs()
    }

    fn run(
        &mut self,
        alloc: Global,
        job: &Job,
        given: &Given<Value>,
    ) -> Result<Arc<Value>, AllocError> {
        self.as_mut().run(alloc, job, given)
    }

    fn outcome(value: &Value) -> Option<Outcome>
        ensures { result ≡ outcome_of_value value.now }
    {
        match value {
            Value::Bound(Ok(bound)) => Some(Outcome::Bound(*bound)),
            Value::Bound(Err(fault)) => Some(Outcome::Fault(*fault)),
            _ => None,
        }
    }

    ghost stable = { stable_feature };

    ghost tells = { feature_tells };
}
