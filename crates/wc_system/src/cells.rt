ghost use Rattle.std.specs.Prelude.{◌≡◌, ◌<◌, ◌≤◌, ◌+◌, ◌-◌, ◌^◌, ◌==◌, ◌&&◌, false, if◌then◌else◌, All, IfOk, IfSome, Some, length, min, not, replicate, slice_get, slice_index, slice_index_or};
ghost use Rattle.wc_model.specs.declared.flow_system.SystemStep.{SystemStep};
ghost use Rattle.wc_model.specs.Flow.Cells.{first_steps, row_nodes};
ghost use Rattle.wc_system.specs.Inner.Counted.{AreCounts, ArePassed, cells_with, enters_node, leaves_node, raised, IsFirstCount};

use std::alloc::{AllocError, Global};
use wc_model::{System, SystemStep};

/// How many cells the tableau has once so many limits are added, or the greatest number where they are more.
pub fn cells(alloc: Global, system: &System, limits: usize) -> Result<u128, AllocError>
    requires sources { All (λ t. t.source < system.now.nodes) system.now.steps }
    requires targets { All (λ t. IfSome t.target (λ q. q < system.now.nodes)) system.now.steps }
    requires few { length system.now.steps < 2 ^ 32 }
    ensures { IfOk result (λ n. n ≡ min (cells_with system.now limits) (2 ^ 128 - 1)) }
{
    let passed = passed_nodes(alloc, system)?;
    let slacks = system.loops.items().len() as u128 + limits as u128;
    let rows = row_count(system, passed.as_slice()) as u128 + slacks;
    let columns = column_count(system, passed.as_slice()) as u128;
    Ok((rows + 2).saturating_mul(columns + slacks + rows + 2))
}

fn row_count(system: &System, passed: &[bool]) -> u32
    requires { ArePassed system.now system.now.nodes passed.now }
    ensures { result ≡ length (row_nodes system.now) }
{
    let mut count = 0;
    for node in 0..system.nodes {
        count += one_unless(passed[node as usize]);
    }
    count
}

fn one_unless(test: bool) -> u32
    ensures few { result ≤ 1 }
    ensures one { result ≡ (if test then 0 else 1) }
{
    if test { 0 } else { 1 }
}

fn column_count(system: &System, passed: &[bool]) -> u32
    requires passed { ArePassed system.now system.now.nodes passed.now }
    requires sources { All (λ t. t.source < system.now.nodes) system.now.steps }
    requires few { length system.now.steps < 2 ^ 32 }
    ensures { result ≡ length (first_steps system.now) }
{
    let steps = system.steps.items();
    let mut count = 0;
    for place in 0..steps.len() {
        count += first_step(steps, place, passed);
    }
    count
}

// 1 where the step at a place leaves a node that isn't passed through
fn first_step(steps: &[SystemStep], place: usize, passed: &[bool]) -> u32
    requires known { place < length steps.now }
    requires sources { All (λ t. t.source < length passed.now) steps.now }
    ensures few { result ≤ 1 }
    ensures one { IsFirstCount steps.now passed.now place result }
{
    one_unless(passed[steps[place].source as usize])
}

// a node that is passed through isn't the start, and has one step in and one step out
fn passed_nodes(alloc: Global, system: &System) -> Result<Vec<bool>, AllocError>
    requires sources { All (λ t. t.source < system.now.nodes) system.now.steps }
    requires targets { All (λ t. IfSome t.target (λ q. q < system.now.nodes)) system.now.steps }
    requires few { length system.now.steps < 2 ^ 32 }
    ensures { IfOk result (λ v. ArePassed system.now system.now.nodes v.items) }
{
    let outs = steps_out(alloc, system.steps.items(), system.nodes as usize)?;
    let ins = steps_in(alloc, system.steps.items(), system.nodes as usize)?;
    let mut passed = Vec::with_capacity(alloc, system.nodes as usize)?;
    for node in 0..system.nodes {
        passed.push(is_passed(node, system.start, ins[node as usize], outs[node as usize]))?;
    }
    Ok(passed)
}

fn is_passed(node: u32, start: u32, ins: u32, outs: u32) -> bool
    ensures { result ≡ (not (node == start) && ins == 1 && outs == 1) }
{
    node != start && ins == 1 && outs == 1
}

fn steps_out(alloc: Global, steps: &[SystemStep], nodes: usize) -> Result<Vec<u32>, AllocError>
    requires sources { All (λ t. t.source < nodes) steps.now }
    requires few { length steps.now < 2 ^ 32 }
    ensures { IfOk result (λ v. AreCounts leaves_node steps.now nodes (length steps.now) v.items) }
{
    let mut counts = zeros(alloc, nodes)?;
    for place in 0..steps.len() {
        counts[steps[place].source as usize] += 1;
    }
    Ok(counts)
}

fn steps_in(alloc: Global, steps: &[SystemStep], nodes: usize) -> Result<Vec<u32>, AllocError>
    requires targets { All (λ t. IfSome t.target (λ q. q < nodes)) steps.now }
    requires few { length steps.now < 2 ^ 32 }
    ensures { IfOk result (λ v. AreCounts enters_node steps.now nodes (length steps.now) v.items) }
{
    let mut counts = zeros(alloc, nodes)?;
    for place in 0..steps.len() {
        raise(&mut counts, target_at(steps, place));
    }
    Ok(counts)
}

fn target_at(steps: &[SystemStep], place: usize) -> Option<u32>
    requires { place < length steps.now }
    ensures { (t : SystemStep) → slice_get steps.now place ≡ Some t → result ≡ t.target }
{
    steps[place].target
}

fn raise(counts: &mut Vec<u32>, node: Option<u32>)
    requires known { IfSome node (λ q. q < length counts.old.items) }
    requires room { IfSome node (λ q. slice_index counts.old.items q + 1 < 2 ^ 32) }
    ensures { counts.new.items ≡ raised node counts.old.items }
{
    if let Some(node) = node {
        counts[node as usize] += 1;
    }
}

fn zeros(alloc: Global, count: usize) -> Result<Vec<u32>, AllocError>
    ensures { IfOk result (λ v. v.items ≡ replicate count 0) }
{
    let mut zeros = Vec::with_capacity(alloc, count)?;
    for _ in 0..count {
        zeros.push(0)?;
    }
    Ok(zeros)
}
