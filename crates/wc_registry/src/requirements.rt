ghost use Rattle.std.specs.Prelude.{◌≡◌, ℕ, ◌<◌, ◌↔◌, true, length, IfOk};
ghost use Rattle.std.specs.List.{find};
ghost use Rattle.std.specs.Option.{option_map};
ghost use Rattle.wc_model.specs.Workspace.Closures.{describe_of, has_kind, requires_of};
ghost use Rattle.wc_model.specs.Workspace.Registry.{IsCyclic, IsDoubled, IsMissing, IsProvided, Requires};
ghost use Rattle.wc_registry.specs.Inner.KindSets.{Adds, holds, is_open};
ghost use Rattle.wc_registry.specs.Inner.Required.{AreProvided, AreRequired};
ghost use Rattle.wc_registry.specs.Sound.{NoneWith};

use crate::kind_sets::KindSet;
use std::alloc::{AllocError, Global};
use wc_model::{Describe, Kind};

fn provided(list: &[Describe]) -> KindSet
    ensures are { AreProvided list.now result }
    ensures counted { length result ≡ 65 }
{
    let mut provided = KindSet::empty();
    for describe in list {
        provided.add(describe.provides);
    }
    provided
}

// The kinds that are provided twice.
pub fn doubled(list: &[Describe]) -> KindSet
    ensures { (k : ℕ) → (holds result k ≡ true) ↔ IsDoubled list.now k }
{
    let mut provided = KindSet::empty();
    let mut doubled = KindSet::empty();
    for describe in list {
        if provided.has(describe.provides) {
            doubled.add(describe.provides);
        }
        provided.add(describe.provides);
    }
    doubled
}

// The kinds that are required and not provided.
pub fn missing(list: &[Describe]) -> KindSet
    ensures missing { (k : ℕ) → (holds result k ≡ true) ↔ IsMissing list.now k }
    ensures below { (k : ℕ) → IsProvided list.now k → k < 65 }
{
    let provided = provided(list);
    let mut missing = KindSet::empty();
    for describe in list {
        missing.add_unless(describe.requires_.items(), &provided);
    }
    missing
}

// Of each number the kinds that the kind of that number requires, directly or through others.
pub fn required_sets(alloc: Global, list: &[Describe]) -> Result<Vec<KindSet>, AllocError>
    requires { NoneWith (IsDoubled list.now) }
    ensures { IfOk result (λ sets. AreRequired list.now sets.items) }
{
    let mut sets = Vec::with_capacity(alloc, 65)?;
    for number in 0..65u8 {
        sets.push(required(list, number))?;
    }
    Ok(sets)
}

fn required(list: &[Describe], number: u8) -> KindSet
    requires { NoneWith (IsDoubled list.now) }
    ensures { (k : ℕ) → (holds result k ≡ true) ↔ Requires list.now number k }
{
    let mut found = KindSet::empty();
    add_direct(&mut found, list, number);
    while let Some(describe) = next_open(list, &found) {
        found.add_all(describe.requires_.items());
    }
    found
}

// The kinds that the kind of a number requires by its own description.
fn add_direct(found: &mut KindSet, list: &[Describe], number: u8)
    ensures { Adds (λ k. has_kind k (requires_of list.now number)) found.old found.new }
{
    if let Some(describe) = described(list, number) {
        found.add_all(describe.requires_.items());
    }
}

fn described<'a>(list: &'a [Describe], number: u8) -> Option<&'a Describe>
    ensures { option_map (λ d. d.now) result ≡ describe_of list.now number }
{
    list.iter()
        .find(|describe| describe.provides.number() == number)
}

// The first kind that is found and requires one that isn't.
fn next_open<'a>(list: &'a [Describe], found: &KindSet) -> Option<&'a Describe>
    ensures { option_map (λ d. d.now) result ≡ find (is_open found.now) list.now }
{
    list.iter().find(|describe| is_open(describe, found))
}

fn is_open(describe: &Describe, found: &KindSet) -> bool
    ensures { result ≡ is_open found.now describe.now }
{
    found.has(describe.provides) && !found.has_all(describe.requires_.items())
}

// The kinds that require themselves.
pub fn cyclic(list: &[Describe], sets: &[KindSet]) -> KindSet
    requires sets { AreRequired list.now sets.now }
    requires below { (k : ℕ) → IsProvided list.now k → k < 65 }
    ensures { (k : ℕ) → (holds result k ≡ true) ↔ IsCyclic list.now k }
{
    let mut cyclic = KindSet::empty();
    for describe in list {
        let kind = describe.provides;
        if sets[kind.number() as usize].has(kind) {
            cyclic.add(kind);
        }
    }
    cyclic
}
