ghost use Rattle.std.specs.Prelude.{◌≡◌, ◌<◌, ◌+◌, ◌++◌, ◌∷◌, [], All, IfOk, length, map};
ghost use Rattle.std.specs.Option.{option_map};
ghost use Rattle.wc_model.specs.Flow.Cells.{columns_of};
ghost use Rattle.wc_model.specs.Flow.Systems.{IsSystem};
ghost use Rattle.wc_model.specs.Flow.Tableaus.{halves, lines_of};
ghost use Rattle.wc_simplex.specs.Inner.Columns.{ArePassed, IsColumn};
ghost use Rattle.wc_simplex.specs.Inner.Halves.{half_as, row_half};
ghost use Rattle.wc_simplex.specs.Inner.Making.{Adds, AddsInequalities, AddsInequality, AddsNode, AddsNodes, IsInequalityAt, IsLimitAt, IsLoopAt};

use crate::half::HalfRow;
use crate::halves::{make_half, node_half};
use crate::lines::{limit_row, loop_row};
use crate::ordering::is_passed;
use crate::stated::StatedRow;
use std::alloc::{AllocError, Global};
use wc_model::{System, Table};

fn add_row(
    alloc: Global,
    columns: &[Table<usize>],
    slacks: usize,
    own: usize,
    row: &StatedRow,
    made: &mut Vec<HalfRow>,
) -> Result<Option<()>, AllocError>
    requires { All (IsColumn (length row.now.entries.items)) columns.now }
    ensures { IfOk result (λ o. Adds (row_half columns.now slacks own row.now) o made.old.items made.new.items) }
{
    match make_half(alloc, columns, slacks, own, row)? {
        None => Ok(None),
        Some(half) => {
            made.push(half)?;
            Ok(Some(()))
        }
    }
}

fn add_half(made: &mut Vec<HalfRow>, half: HalfRow) -> Result<(), AllocError>
    ensures { IfOk result (λ _. map half_as made.new.items ≡ map half_as made.old.items ++ half_as half ∷ []) }
{
    made.push(half)?;
    Ok(())
}

// The row of a node that isn't passed through.
fn add_node(
    alloc: Global,
    system: &System,
    columns: &[Table<usize>],
    passed: &[Option<usize>],
    slacks: usize,
    node: u32,
    made: &mut Vec<HalfRow>,
) -> Result<Option<()>, AllocError>
    requires passed { ArePassed system.now passed.now }
    requires node { node < system.now.nodes }
    requires columns { All (IsColumn (length system.now.steps)) columns.now }
    requires ordered { columns.now ≡ columns_of system.now }
    ensures { IfOk result (AddsNode system.now columns.now slacks node made.old.items made.new.items) }
{
    if is_passed(system, passed, node) {
        return Ok(Some(()));
    }
    let half = node_half(alloc, system, columns, slacks, node)?;
    add_half(made, half)?;
    Ok(Some(()))
}

// The rows of the nodes that aren't passed through.
fn add_nodes(
    alloc: Global,
    system: &System,
    columns: &[Table<usize>],
    passed: &[Option<usize>],
    slacks: usize,
    made: &mut Vec<HalfRow>,
) -> Result<Option<()>, AllocError>
    requires passed { ArePassed system.now passed.now }
    requires columns { All (IsColumn (length system.now.steps)) columns.now }
    requires ordered { columns.now ≡ columns_of system.now }
    ensures { IfOk result (AddsNodes system.now columns.now slacks made.old.items made.new.items) }
{
    for node in 0..system.nodes {
        match add_node(alloc, system, columns, passed, slacks, node, made)? {
            None => return Ok(None),
            Some(()) => {}
        }
    }
    Ok(Some(()))
}

fn loop_at(alloc: Global, system: &System, place: usize) -> Result<StatedRow, AllocError>
    requires system { IsSystem system.now }
    requires place { place < length system.now.loops }
    ensures { IfOk result (IsLoopAt system.now place) }
{
    loop_row(alloc, system, &system.loops.items()[place])
}

fn limit_at(alloc: Global, system: &System, place: usize) -> Result<StatedRow, AllocError>
    requires system { IsSystem system.now }
    requires place { place < length system.now.limits }
    ensures { IfOk result (IsLimitAt system.now place) }
{
    limit_row(alloc, system, &system.limits.items()[place])
}

// The row of a loop or, behind the loops, of a limit.
fn inequality_at(alloc: Global, system: &System, place: usize) -> Result<StatedRow, AllocError>
    requires system { IsSystem system.now }
    requires place { place < length system.now.loops + length system.now.limits }
    ensures { IfOk result (IsInequalityAt system.now place) }
{
    let loops = system.loops.items().len();
    if place < loops {
        loop_at(alloc, system, place)
    } else {
        limit_at(alloc, system, place - loops)
    }
}

fn add_inequality(
    alloc: Global,
    system: &System,
    columns: &[Table<usize>],
    slacks: usize,
    place: usize,
    made: &mut Vec<HalfRow>,
) -> Result<Option<()>, AllocError>
    requires system { IsSystem system.now }
    requires place { place < length system.now.loops + length system.now.limits }
    requires columns { All (IsColumn (length system.now.steps)) columns.now }
    ensures { IfOk result (AddsInequality system.now columns.now slacks place made.old.items made.new.items) }
{
    let row = inequality_at(alloc, system, place)?;
    add_row(alloc, columns, slacks, place, &row, made)
}

// The rows of the loops and of the limits, each with its slack.
fn add_inequalities(
    alloc: Global,
    system: &System,
    columns: &[Table<usize>],
    slacks: usize,
    made: &mut Vec<HalfRow>,
) -> Result<Option<()>, AllocError>
    requires system { IsSystem system.now }
    requires slacks { slacks ≡ length system.now.loops + length system.now.limits }
    requires columns { All (IsColumn (length system.now.steps)) columns.now }
    ensures { IfOk result (AddsInequalities system.now columns.now slacks made.old.items made.new.items) }
{
    for place in 0..slacks {
        match add_inequality(alloc, system, columns, slacks, place, made)? {
            None => return Ok(None),
            Some(()) => {}
        }
    }
    Ok(Some(()))
}

/// The rows of a system before their artificial columns.
pub fn make_halves(
    alloc: Global,
    system: &System,
    columns: &[Table<usize>],
    passed: &[Option<usize>],
    slacks: usize,
) -> Result<Option<Vec<HalfRow>>, AllocError>
    requires system { IsSystem system.now }
    requires slacks { slacks ≡ length system.now.loops + length system.now.limits }
    requires passed { ArePassed system.now passed.now }
    requires columns { All (IsColumn (length system.now.steps)) columns.now }
    requires ordered { columns.now ≡ columns_of system.now }
    ensures { IfOk result (λ o. option_map (λ v. map half_as v.items) o ≡ halves system.now columns.now slacks 0 (lines_of system.now)) }
{
    let mut made = Vec::new(alloc);
    match add_nodes(alloc, system, columns, passed, slacks, &mut made)? {
        None => Ok(None),
        Some(()) => match add_inequalities(alloc, system, columns, slacks, &mut made)? {
            None => Ok(None),
            Some(()) => Ok(Some(made)),
        },
    }
}
