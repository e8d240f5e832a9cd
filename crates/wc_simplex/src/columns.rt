ghost use Rattle.std.specs.Prelude.{◌≡◌, ◌<◌, All, IfOk, IfSome, length};
ghost use Rattle.wc_model.specs.Flow.Cells.{column_of, next_of};
ghost use Rattle.wc_model.specs.Flow.Systems.{IsSystem};
ghost use Rattle.wc_simplex.specs.Inner.Columns.{AreIns, AreOuts, ArePassed, with_lead};

use crate::only::Only;
use std::alloc::{AllocError, Global};
use wc_model::{System, Table};

// What leaves each node.
fn outs(alloc: Global, system: &System) -> Result<Vec<Only>, AllocError>
    requires { IsSystem system.now }
    ensures { IfOk result (λ v. AreOuts system.now 0 v.items) }
{
    let mut outs = vec![in alloc; Only::Nothing; system.nodes as usize]?;
    let steps = system.steps.items();
    for place in (0..steps.len()).rev() {
        let node = steps[place].source as usize;
        outs[node] = outs[node].with(place);
    }
    Ok(outs)
}

// One more step that leads to a node, if it leads to one.
fn lead(ins: &mut Vec<Only>, target: Option<u32>, place: usize)
    requires { IfSome target (λ q. q < length ins.old.items) }
    ensures { ins.new.items ≡ with_lead ins.old.items target place }
{
    if let Some(node) = target {
        ins[node as usize] = ins[node as usize].with(place);
    }
}

// What leads to each node.
fn ins(alloc: Global, system: &System) -> Result<Vec<Only>, AllocError>
    requires { IsSystem system.now }
    ensures { IfOk result (λ v. AreIns system.now 0 v.items) }
{
    let mut ins = vec![in alloc; Only::Nothing; system.nodes as usize]?;
    let steps = system.steps.items();
    for place in (0..steps.len()).rev() {
        lead(&mut ins, steps[place].target, place);
    }
    Ok(ins)
}

/// For each node that is passed through, its one step out.
pub fn passed(alloc: Global, system: &System) -> Result<Vec<Option<usize>>, AllocError>
    requires { IsSystem system.now }
    ensures { IfOk result (λ v. ArePassed system.now v.items) }
{
    let outs = outs(alloc, system)?;
    let ins = ins(alloc, system)?;
    let mut passed = Vec::with_capacity(alloc, system.nodes as usize)?;
    for node in 0..system.nodes {
        passed.push(Only::through(
            ins[node as usize],
            outs[node as usize],
            node == system.start,
        ))?;
    }
    Ok(passed)
}

fn next_step(system: &System, passed: &[Option<usize>], place: usize) -> Option<usize>
    requires system { IsSystem system.now }
    requires passed { ArePassed system.now passed.now }
    requires place { place < length system.now.steps }
    ensures next { result ≡ next_of system.now place }
    ensures inside { IfSome result (λ i. i < length system.now.steps) }
{
    match system.steps.items()[place].target {
        None => None,
        Some(node) => passed[node as usize],
    }
}

/// The column that begins with a step.
pub fn column(
    alloc: Global,
    system: &System,
    passed: &[Option<usize>],
    first: usize,
) -> Result<Table<usize>, AllocError>
    requires system { IsSystem system.now }
    requires passed { ArePassed system.now passed.now }
    requires first { first < length system.now.steps }
    ensures column { IfOk result (λ c. c ≡ column_of system.now first) }
    ensures inside { IfOk result (λ c. All (λ i. i < length system.now.steps) c) }
{
    let mut places = Vec::new(alloc);
    let mut next = Some(first);
    for _step in 0..system.steps.items().len() {
        let Some(place) = next else {
            return Ok(Table::new(places));
        };
        places.push(place)?;
        next = next_step(system, passed, place);
    }
    Ok(Table::new(places))
}
