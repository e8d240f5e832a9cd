ghost use Rattle.std.specs.Prelude.{◌≡◌, ◌↔◌, IsTrue, Contains};
ghost use Rattle.std.specs.List.{list_any};
ghost use Rattle.wc_model.specs.Workspace.Closures.{closure, order_of};
ghost use Rattle.wc_model.specs.Workspace.Registry.{IsInClosure, IsOrderOf};
ghost use Rattle.wc_registry.specs.Inner.Required.{has_part, reads_for, same_part};
ghost use Rattle.wc_registry.specs.Sound.{IsRegistryOf, IsSound};

use crate::faults::RegistryFault;
use crate::kind_sets::KindSet;
use crate::ordering::ordered;
use crate::requirements::{cyclic, doubled, missing, required_sets};
use std::alloc::Global;
use std::marker::Model;
use wc_model::{Describe, Kind, Part};

/// The kinds of features, of which none is provided twice, none is missing and none requires itself. Contracts see the
/// list of descriptions.
#[derive(Debug, Drop)]
pub struct Registry {
    kinds: Vec<Describe>,
    order: Vec<Kind>,
    required: Vec<KindSet>,
}

impl Model for Registry {
    ghost use Rattle.std.specs.Prelude.{List, ◌≡◌};
    ghost use Rattle.wc_model.specs.declared.kinds.Describe.{Describe};
    ghost use Rattle.wc_registry.specs.Inner.Required.{IsKnown};

    ghost Value = { List Describe };

    ghost view = { λ r. r.kinds.items };

    ghost invariant = { λ r. IsKnown r.kinds.items r.order.items r.required.items };
}

impl Registry {
    /// Refuses a list by the first of these that holds, each with the least such kind: a kind is provided twice, is
    /// required and not provided, or requires itself.
    pub fn new(alloc: Global, list: Vec<Describe>) -> Result<Registry, RegistryFault>
        ensures { IsRegistryOf list.items result }
    {
        if let Some(kind) = doubled(&list).least() {
            return Err(RegistryFault::Double(kind));
        }
        if let Some(kind) = missing(&list).least() {
            return Err(RegistryFault::Missing(kind));
        }
        let required = required_sets(alloc, &list)?;
        if let Some(kind) = cyclic(&list, &required).least() {
            return Err(RegistryFault::Cycle(kind));
        }
        let order = ordered(alloc, &list)?;
        Ok(Registry {
            kinds: list,
            order,
            required,
        })
    }

    /// Each kind after what it requires, the least available first.
    pub fn order(&self) -> &[Kind]
        ensures sound { IsSound self.now }
        ensures order { IsOrderOf self.now result.now }
        ensures listed { result.now ≡ order_of self.now }
    {
        self.order.as_slice()
    }

    /// Whether the kind, or any kind that it requires, directly or through others, reads the part. False for a kind that
    /// the registry doesn't have.
    pub fn reads(&self, kind: Kind, part: Part) -> bool
        ensures closure { IsTrue result ↔ IsInClosure self.now kind part }
        ensures listed { IsTrue result ↔ Contains (closure self.now kind) part }
    {
        let required = &self.required[kind.number() as usize];
        any_reads(&self.kinds, kind, required, part)
    }
}

fn any_reads(list: &[Describe], kind: Kind, required: &KindSet, part: Part) -> bool
    ensures { result ≡ list_any (reads_for kind required.now part) list.now }
{
    list.iter()
        .any(|describe| reads_for(describe, kind, required, part))
}

// Whether a description is of the kind or of one that is required, and reads the part.
fn reads_for(describe: &Describe, kind: Kind, required: &KindSet, part: Part) -> bool
    ensures { result ≡ reads_for kind required.now part describe.now }
{
    (describe.provides.number() == kind.number() || required.has(describe.provides))
        && has_part(describe.reads.items(), part)
}

fn has_part(parts: &[Part], part: Part) -> bool
    ensures { result ≡ has_part part parts.now }
{
    parts.iter().any(|other| is_same(*other, part))
}

fn is_same(left: Part, right: Part) -> bool
    ensures { result ≡ same_part left right }
{
    left == right
}
