ghost use Rattle.std.specs.Prelude.{◌≡◌, ◌+◌, ◌<◌, ◌==◌, ℕ, pos, neg_ℤ, MatchBool, Some, length, slice_get};
ghost use Rattle.wc_base.specs.Sums.{chosen};
ghost use Rattle.wc_model.specs.declared.flow_system.SystemStep.{SystemStep};
ghost use Rattle.wc_model.specs.Flow.Places.{number_at};
ghost use Rattle.wc_model.specs.Flow.Systems.{leads_to};
ghost use Rattle.wc_dual.specs.Inner.Clauses.{AddsBalance, AreNodeSums, At, IsPut, IsTaken};
ghost use Rattle.wc_dual.specs.Inner.Blocks.{Adds, AreBalances, CannotPut, CannotTake, IsTurn, LeavesIn, Tells, balance_of};

use crate::numbers::{less, plus};
use wc_model::SystemStep;

/// Adds an amount to the sum of a node, where the node is in the block that begins with `first`.
pub fn put(node: usize, amount: &i128, first: usize, sums: &mut [i128]) -> bool
    ensures { IsPut first node amount.now sums.old sums.new result }
{
    if node < first || node - first >= sums.len() {
        return true;
    }
    match plus(&sums[node - first], amount) {
        None => false,
        Some(sum) => {
            sums[node - first] = sum;
            true
        }
    }
}

/// Takes an amount off, in the same way.
pub fn take_off(node: Option<u32>, amount: &i128, first: usize, sums: &mut [i128]) -> bool
    ensures { IsTaken first node amount.now sums.old sums.new result }
{
    let Some(node) = node else {
        return true;
    };
    let node = node as usize;
    if node < first || node - first >= sums.len() {
        return true;
    }
    match less(&sums[node - first], amount) {
        None => false,
        Some(sum) => {
            sums[node - first] = sum;
            true
        }
    }
}

/// Sums of nothing.
pub fn clear(room: &mut [i128])
    ensures kept { length room.new ≡ length room.old }
    ensures empty { (k : ℕ) → number_at room.new k ≡ pos 0 }
{
    for place in 0..room.len() {
        room[place] = 0;
    }
}

/// The balances of the nodes of a block: the counts out less the counts in.
pub fn balances(steps: &[SystemStep], x: &[i128], first: usize, sums: &mut [i128]) -> bool
    requires counted { length x.now ≡ length steps.now }
    requires empty { (k : ℕ) → number_at sums.old k ≡ pos 0 }
    ensures kept { length sums.new ≡ length sums.old }
    ensures sums { AreNodeSums steps.now x.now first sums.old sums.new result }
{
    for place in 0..steps.len() {
        if !balance_step(steps, place, x, first, sums) {
            return false;
        }
    }
    true
}

fn balance_step(
    steps: &[SystemStep],
    place: usize,
    x: &[i128],
    first: usize,
    sums: &mut [i128],
) -> bool
    requires known { place < length steps.now }
    requires counted { length x.now ≡ length steps.now }
    ensures { At steps.now place (AddsBalance x.now place first sums.old sums.new result) }
{
    put_step(steps[place], &x[place], first, sums)
}

// a step to itself changes nothing
fn put_step(step: SystemStep, amount: &i128, first: usize, sums: &mut [i128]) -> bool
    ensures { IsTurn first (balance_of amount.now step) sums.old sums.new result }
{
    if leads_to_itself(&step) {
        return true;
    }
    if !put(step.source as usize, amount, first, sums) {
        return false;
    }
    take_off(step.target, amount, first, sums)
}

fn leads_to_itself(step: &SystemStep) -> bool
    ensures { Tells (step.now.target ≡ Some step.now.source) result }
{
    step.target == Some(step.source)
}
