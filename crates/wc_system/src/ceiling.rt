ghost use Rattle.std.specs.Prelude.{◌≡◌, ◌+◌, ◌*◌, ◌<◌, ◌≤◌, ◌^◌, ℕ, All, IfOk, IfSome, Some, length, slice_get, slice_index, replicate};
ghost use Rattle.wc_model.specs.declared.graphs.Head.{Head};
ghost use Rattle.wc_model.specs.Flow.Ceiling.{ceiling_by, dearest};
ghost use Rattle.wc_system.specs.Inner.Capped.{AreOuterFirst, AreRounds, HasOuter, IsCappedCeiling, capped, capped_total, rounds_within};

use std::alloc::{AllocError, Global};
use wc_model::{Head, Nest, SystemStep};

/// From here on no function is analysed.
pub const CEILING: u128 = 1 << 100;

/// The ceiling of a system, or 2^100 where it is more.
pub fn capped_ceiling(
    alloc: Global,
    nest: &Nest,
    bounds: &[u32],
    steps: &[SystemStep],
) -> Result<u128, AllocError>
    requires bounds { length bounds.now ≡ length nest.now.heads }
    requires parents { AreOuterFirst nest.now.heads }
    requires inside { All (λ o. IfSome o (λ k. k < length nest.now.heads)) nest.now.inside }
    requires sources { All (λ t. t.source < length nest.now.inside) steps.now }
    ensures { IfOk result (IsCappedCeiling nest.now bounds.now steps.now) }
{
    let inside = nest.inside.items();
    let rounds = rounds(alloc, nest.heads.items(), bounds)?;
    let dearest = dearest_costs(alloc, steps, inside.len())?;
    Ok(total(inside, rounds.as_slice(), dearest.as_slice()))
}

// how often the loops round a place go round, all together: one more than each bound, multiplied
fn rounds(alloc: Global, heads: &[Head], bounds: &[u32]) -> Result<Vec<u128>, AllocError>
    requires bounds { length bounds.now ≡ length heads.now }
    requires parents { AreOuterFirst heads.now }
    ensures counted { IfOk result (λ v. length v.items ≡ length heads.now) }
    ensures rounds { IfOk result (λ v. AreRounds heads.now bounds.now (length heads.now) v.items) }
{
    let mut rounds = Vec::with_capacity(alloc, heads.len())?;
    for place in 0..heads.len() {
        let outer = outer_rounds(heads, place, rounds.as_slice());
        rounds.push(capped_product(bounds[place] as u128 + 1, outer))?;
    }
    Ok(rounds)
}

fn outer_rounds(heads: &[Head], place: usize, rounds: &[u128]) -> u128
    requires known { place < length heads.now }
    requires parent { HasOuter heads.now place rounds.now }
    ensures { (h : Head) → slice_get heads.now place ≡ Some h → result ≡ rounds_within rounds.now h.parent }
{
    rounds_at(heads[place].parent, rounds)
}

fn rounds_at(at: Option<u32>, rounds: &[u128]) -> u128
    requires { IfSome at (λ k. k < length rounds.now) }
    ensures { result ≡ rounds_within rounds.now at }
{
    match at {
        None => 1,
        Some(k) => rounds[k as usize],
    }
}

fn capped_product(a: u128, b: u128) -> u128
    ensures { result ≡ capped (a * b) }
{
    a.saturating_mul(b).min(CEILING)
}

fn capped_sum(a: u128, b: u128) -> u128
    ensures { result ≡ capped (a + b) }
{
    a.saturating_add(b).min(CEILING)
}

fn dearest_costs(alloc: Global, steps: &[SystemStep], nodes: usize) -> Result<Vec<u64>, AllocError>
    requires { All (λ t. t.source < nodes) steps.now }
    ensures counted { IfOk result (λ v. length v.items ≡ nodes) }
    ensures dearest { IfOk result (λ v. (p : ℕ) → p < nodes → slice_index v.items p ≡ dearest steps.now p) }
{
    let mut costs = ones(alloc, nodes)?;
    for place in 0..steps.len() {
        let source = steps[place].source as usize;
        costs[source] = costs[source].max(steps[place].cost);
    }
    Ok(costs)
}

fn ones(alloc: Global, count: usize) -> Result<Vec<u64>, AllocError>
    ensures { IfOk result (λ v. v.items ≡ replicate count 1) }
{
    let mut ones = Vec::with_capacity(alloc, count)?;
    for _ in 0..count {
        ones.push(1)?;
    }
    Ok(ones)
}

fn total(inside: &[Option<u32>], rounds: &[u128], dearest: &[u64]) -> u128
    requires counted { length dearest.now ≡ length inside.now }
    requires inside { All (λ o. IfSome o (λ k. k < length rounds.now)) inside.now }
    ensures { result ≡ capped_total rounds.now dearest.now 0 inside.now }
{
    let mut sum = 0;
    for place in 0..inside.len() {
        sum = capped_sum(
            sum,
            capped_product(dearest[place] as u128, rounds_at(inside[place], rounds)),
        );
    }
    sum
}
