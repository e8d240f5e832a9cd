ghost use Rattle.std.specs.Prelude.{◌≡◌, ◌+◌, ◌*◌, ◌<◌, ◌≤◌, ◌^◌, ℕ, [], ◌∷◌, IfOk, OnOk, length, slice_index_or};
ghost use Rattle.std.specs.List.Sorted.{IsNonDecreasingBy};
ghost use Rattle.wc_model.specs.Flow.Systems.{constant_in, times_in};
ghost use Rattle.wc_model.specs.Program.Positions.{Position};
ghost use Rattle.wc_system.specs.declared.terms.Visit.{Visit};
ghost use Rattle.wc_system.specs.Inner.Contexts.{AreContexts, position_in};
ghost use Rattle.wc_system.specs.Inner.Terms.{AddsVisits, IsFirstAt, IsTimesAt, visit_sum, visit_times};

use crate::contexts::calls_fit;
use std::alloc::{AllocError, Global};
use wc_model::{Context, Node, Term};

/// A term that counts visits.
#[derive(Clone, Copy)]
pub struct Visit<'a> {
    at: u32,
    times: u32,
    within: &'a [u32],
}

/// The terms of a side that count visits, by rising address.
pub fn visits_of<'a>(alloc: Global, terms: &'a [Term]) -> Result<Vec<Visit<'a>>, AllocError>
    ensures sorted { IfOk result (λ v. IsNonDecreasingBy (λ (t : Visit). t.at) v.items) }
    ensures same { IfOk result (λ v. (p : Position) → visit_sum p v.items ≡ times_in p terms.now) }
{
    let mut visits = gathered(alloc, terms)?;
    visits.sort_unstable_by_key(|visit| visit.at);
    Ok(visits)
}

fn gathered<'a>(alloc: Global, terms: &'a [Term]) -> Result<Vec<Visit<'a>>, AllocError>
    ensures { IfOk result (λ v. (p : Position) → visit_sum p v.items ≡ times_in p terms.now) }
{
    let mut visits = Vec::with_capacity(alloc, terms.len())?;
    for term in terms {
        add_visit(&mut visits, term)?;
    }
    Ok(visits)
}

fn add_visit<'a>(visits: &mut Vec<Visit<'a>>, term: &'a Term) -> Result<(), AllocError>
    ensures { OnOk result (AddsVisits term.now visits.old.items visits.new.items) }
{
    match term {
        Term::Constant(_) => {}
        Term::Visits { times, at, within } => {
            visits.push(Visit {
                at: *at,
                times: *times,
                within: within.items(),
            })?;
        }
    }
    Ok(())
}

/// How often a side counts a visit of a node.
pub fn times_at(visits: &[Visit], contexts: &[Context], node: &Node) -> u128
    requires sorted { IsNonDecreasingBy (λ (t : Visit). t.at) visits.now }
    requires parents { AreContexts contexts.now }
    requires known { node.now.context < length contexts.now }
    ensures times { result ≡ visit_sum (position_in contexts.now node.now) visits.now }
    ensures small { result < 2 ^ 96 }
{
    let mut sum = 0;
    let mut place = first_at(visits, node.pc);
    while place < visits.len() && visits[place].at == node.pc {
        sum += times_of(visits, place, contexts, node) as u128;
        place += 1;
    }
    sum
}

// the place of the first term for an address, or of where it would stand
fn first_at(visits: &[Visit], at: u32) -> usize
    requires { IsNonDecreasingBy (λ (t : Visit). t.at) visits.now }
    ensures inside { result ≤ length visits.now }
    ensures first { IsFirstAt visits.now at result }
{
    visits.partition_point(|visit| visit.at < at)
}

fn times_of(visits: &[Visit], place: usize, contexts: &[Context], node: &Node) -> u32
    requires inside { place < length visits.now }
    requires parents { AreContexts contexts.now }
    requires known { node.now.context < length contexts.now }
    ensures { IsTimesAt contexts.now node.now visits.now place result }
{
    let visit = &visits[place];
    if node.pc == visit.at && calls_fit(contexts, node.context, visit.within) {
        visit.times
    } else {
        0
    }
}

/// The constants of a side.
pub fn constant_of(terms: &[Term]) -> u128
    ensures constant { result ≡ constant_in terms.now }
    ensures small { result < 2 ^ 96 }
{
    let mut sum = 0;
    for term in terms {
        sum += constant_at(term) as u128;
    }
    sum
}

fn constant_at(term: &Term) -> u32
    ensures { result ≡ constant_in (term.now ∷ []) }
{
    match term {
        Term::Constant(n) => *n,
        Term::Visits { .. } => 0,
    }
}
