//! Copies of facts, and the numbers that the opening facts have.
ghost use Rattle.std.specs.Prelude.{◌≡◌, IfOk};
ghost use Rattle.wc_model.specs.Workspace.Edits.{is_checksum as is_checksum_of};
ghost use Rattle.wc_model.specs.Workspace.History.{opening_facts as opening_facts_of};

use crate::{Fact, Facts};
use std::alloc::{AllocError, Global};

pub fn copy_fact(fact: &Fact) -> Result<Fact, AllocError>
    ensures { IfOk result (λ copy. copy ≡ fact.now) }
{
    fact.clone()
}

fn copy_numbered(fact: &(u64, Fact)) -> Result<(u64, Fact), AllocError>
    ensures { IfOk result (λ copy. copy ≡ fact.now) }
{
    Ok((fact.0, copy_fact(&fact.1)?))
}

pub fn copy_facts(alloc: Global, facts: &Facts) -> Result<Facts, AllocError>
    ensures { IfOk result (λ copies. copies ≡ facts.now) }
{
    let facts = facts.items();
    let mut items = Vec::with_capacity(alloc, facts.len())?;
    for fact in facts {
        items.push(copy_numbered(fact)?)?;
    }
    Ok(Facts::new(items))
}

/// The facts that a workspace is opened with, each with its number.
pub fn opening_facts(alloc: Global, facts: &[Fact]) -> Result<Facts, AllocError>
    ensures { IfOk result (λ numbered. numbered ≡ opening_facts_of facts.now) }
{
    let mut items = Vec::with_capacity(alloc, facts.len())?;
    let mut number = 2;
    for fact in facts {
        items.push((number, copy_fact(fact)?))?;
        number += 1;
    }
    Ok(Facts::new(items))
}

/// Whether a fact states a checksum, which says nothing of what the program may do.
pub fn is_checksum(fact: &Fact) -> bool
    ensures { result ≡ is_checksum_of fact.now }
{
    match fact {
        Fact::Checksum { .. } => true,
        _ => false,
    }
}
