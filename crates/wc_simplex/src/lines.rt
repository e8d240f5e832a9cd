ghost use Rattle.std.specs.Prelude.{◌≡◌, ◌<◌, ◌≤ℤ◌, All, IfOk, if◌then◌else◌, length, map, pos, get_or, false};
ghost use Rattle.std.specs.List.{range_with_len};
ghost use Rattle.wc_model.specs.Flow.Systems.{IsSystem, leads_to};
ghost use Rattle.wc_model.specs.Flow.Tableaus.{limit_line, loop_line, one_if};
ghost use Rattle.wc_simplex.specs.Inner.Columns.{IsColumn, node_ends};
ghost use Rattle.wc_simplex.specs.Inner.Lines.{AreFactors, AreMarks, IsLine, loop_entry};

use crate::stated::StatedRow;
use std::alloc::{AllocError, Global};
use wc_model::{System, SystemLimit, SystemLoop, SystemStep, Table};

pub fn one_if(test: bool) -> i128
    ensures value { result ≡ one_if test }
    ensures low { pos 0 ≤ℤ result }
    ensures high { result ≤ℤ pos 1 }
{
    if test { 1 } else { 0 }
}

fn leads_to(target: Option<u32>, node: u32) -> bool
    ensures { result ≡ leads_to target node }
{
    match target {
        None => false,
        Some(other) => other == node,
    }
}

// 1 where a column begins at a node, less 1 where it leads to it.
fn node_ends(steps: &[SystemStep], node: u32, column: &[usize]) -> i128
    requires { IsColumn (length steps.now) column.now }
    ensures { result ≡ node_ends steps.now node column.now }
{
    let first = &steps[column[0]];
    let last = &steps[column[column.len() - 1]];
    one_if(first.source == node) - one_if(leads_to(last.target, node))
}

/// Out less in, by columns between nodes that have rows.
pub fn node_columns(
    alloc: Global,
    steps: &[SystemStep],
    columns: &[Table<usize>],
    node: u32,
) -> Result<Vec<i128>, AllocError>
    requires { All (IsColumn (length steps.now)) columns.now }
    ensures { IfOk result (λ v. v.items ≡ map (node_ends steps.now node) columns.now) }
{
    let mut entries = Vec::with_capacity(alloc, columns.len())?;
    for column in columns {
        entries.push(node_ends(steps, node, column.items()))?;
    }
    Ok(entries)
}

// Which places are listed.
fn marks(alloc: Global, count: usize, places: &[u32]) -> Result<Vec<bool>, AllocError>
    requires { All (λ i. i < count) places.now }
    ensures { IfOk result (λ v. AreMarks count places.now 0 v.items) }
{
    let mut marks = vec![in alloc; false; count]?;
    for place in (0..places.len()).rev() {
        marks[places[place] as usize] = true;
    }
    Ok(marks)
}

fn loop_entry(back: bool, entry: bool, bound: u32) -> i128
    ensures { result ≡ loop_entry back entry bound }
{
    one_if(back) - if entry { bound as i128 } else { 0 }
}

fn loop_entries(
    alloc: Global,
    back: &[bool],
    entry: &[bool],
    bound: u32,
) -> Result<Vec<i128>, AllocError>
    requires { length back.now ≡ length entry.now }
    ensures { IfOk result (λ v. v.items ≡ map (λ i. loop_entry (get_or back.now i false) (get_or entry.now i false) bound) (range_with_len 0 (length back.now))) }
{
    let mut entries = Vec::with_capacity(alloc, back.len())?;
    for place in 0..back.len() {
        entries.push(loop_entry(back[place], entry[place], bound))?;
    }
    Ok(entries)
}

fn loop_side(bound: u32, is_start: bool) -> i128
    ensures { result ≡ (if is_start then pos bound else pos 0) }
{
    if is_start { bound as i128 } else { 0 }
}

/// Back steps less bound times entry steps are at most the bound where the head is the start, and 0 elsewhere.
pub fn loop_row(alloc: Global, system: &System, l: &SystemLoop) -> Result<StatedRow, AllocError>
    requires back { All (λ i. i < length system.now.steps) l.now.back }
    requires entry { All (λ i. i < length system.now.steps) l.now.entry }
    ensures { IfOk result (IsLine system.now (loop_line system.now l.now)) }
{
    let steps = system.steps.items().len();
    let back = marks(alloc, steps, l.back.items())?;
    let entry = marks(alloc, steps, l.entry.items())?;
    let entries = loop_entries(alloc, &back, &entry, l.bound)?;
    Ok(StatedRow {
        entries,
        side: loop_side(l.bound, l.head == system.start),
        slack: true,
    })
}

// The factor of each node, 0 where it isn't named.
fn factors(alloc: Global, nodes: u32, named: &[(u32, i128)]) -> Result<Vec<i128>, AllocError>
    requires { All (λ f. f.0 < nodes) named.now }
    ensures { IfOk result (λ v. AreFactors nodes named.now 0 v.items) }
{
    let mut factors = vec![in alloc; 0; nodes as usize]?;
    for place in (0..named.len()).rev() {
        let (node, factor) = named[place];
        factors[node as usize] = factor;
    }
    Ok(factors)
}

fn limit_entries(
    alloc: Global,
    steps: &[SystemStep],
    factors: &[i128],
) -> Result<Vec<i128>, AllocError>
    requires { All (λ t. t.source < length factors.now) steps.now }
    ensures { IfOk result (λ v. v.items ≡ map (λ t. get_or factors.now t.source (pos 0)) steps.now) }
{
    let mut entries = Vec::with_capacity(alloc, steps.len())?;
    for step in steps {
        entries.push(factors[step.source as usize])?;
    }
    Ok(entries)
}

/// A stated inequality: the sum of factor times visits is at most the constant.
pub fn limit_row(
    alloc: Global,
    system: &System,
    limit: &SystemLimit,
) -> Result<StatedRow, AllocError>
    requires sources { All (λ t. t.source < system.now.nodes) system.now.steps }
    requires named { All (λ f. f.0 < system.now.nodes) limit.now.factors }
    ensures { IfOk result (IsLine system.now (limit_line limit.now)) }
{
    let factors = factors(alloc, system.nodes, limit.factors.items())?;
    let entries = limit_entries(alloc, system.steps.items(), &factors)?;
    Ok(StatedRow {
        entries,
        side: limit.constant,
        slack: true,
    })
}
