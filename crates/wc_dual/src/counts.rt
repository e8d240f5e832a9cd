ghost use Rattle.std.specs.Prelude.{◌≡◌, ◌+◌, ◌<◌, ◌^◌, ◌==◌, length};
ghost use Rattle.wc_base.specs.Sums.{chosen};
ghost use Rattle.wc_model.specs.Flow.Places.{number_at};
ghost use Rattle.wc_model.specs.Flow.Systems.{IsSystem};
ghost use Rattle.wc_dual.specs.Inner.Clauses.{ChecksBlock, ChecksFlow};
ghost use Rattle.wc_dual.specs.Checks.{IsChecked};
ghost use Rattle.wc_dual.specs.Inner.Blocks.{Tells};
ghost use Rattle.wc_dual.specs.Inner.Parts.{AreBalanced, AreWanted, HasWideNode, IsBlock};

use crate::blocks::{balances, clear};
use crate::checks::Check;
use wc_model::System;

/// Whether at each node the counts out less the counts in are what they have to be, a block of nodes at a time.
pub fn check_flow(system: &System, den: &i128, x: &[i128], room: &mut [i128]) -> Check
    requires system { IsSystem system.now }
    requires room { 0 < length room.old }
    requires small { length room.old < 2 ^ 32 }
    requires counted { length x.now ≡ length system.now.steps }
    ensures kept { length room.new ≡ length room.old }
    ensures flow { ChecksFlow system.now den.now x.now result }
{
    let nodes = system.nodes as usize;
    let mut first = 0;
    while first < nodes {
        match check_block(system, den, x, first, room) {
            Check::Yes => {}
            other => return other,
        }
        first = next_block(first, room.len());
    }
    Check::Yes
}

// where the next block begins; the last one is far away
fn next_block(first: usize, count: usize) -> usize
    requires first { first < 2 ^ 32 }
    requires count { count < 2 ^ 32 }
    ensures { result ≡ first + count }
{
    first + count
}

// the nodes of one block
fn check_block(system: &System, den: &i128, x: &[i128], first: usize, room: &mut [i128]) -> Check
    requires system { IsSystem system.now }
    requires counted { length x.now ≡ length system.now.steps }
    requires inside { first < system.now.nodes }
    requires first { first < 2 ^ 32 }
    ensures kept { length room.new ≡ length room.old }
    ensures block { ChecksBlock system.now den.now x.now first (length room.old) result }
{
    clear(room);
    if !balances(system.steps.items(), x, first, room) {
        return Check::TooWide;
    }
    if are_wanted(system, den, first, room) {
        Check::Yes
    } else {
        Check::No
    }
}

fn are_wanted(system: &System, den: &i128, first: usize, sums: &[i128]) -> bool
    requires { first < 2 ^ 32 }
    ensures { Tells (AreWanted system.now den.now first (length sums.now) sums.now) result }
{
    for place in 0..sums.len() {
        if !is_wanted(system, den, first + place, &sums[place]) {
            return false;
        }
    }
    true
}

fn is_wanted(system: &System, den: &i128, node: usize, sum: &i128) -> bool
    ensures { Tells (node < system.now.nodes → sum.now ≡ chosen (system.now.start == node) den.now) result }
{
    if node >= system.nodes as usize {
        return true;
    }
    if node == system.start as usize {
        *sum == *den
    } else {
        *sum == 0
    }
}
