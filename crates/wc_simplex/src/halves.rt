ghost use Rattle.std.specs.Prelude.{◌≡◌, ◌<◌, ◌++◌, All, IfOk, length, pos, replicate, true};
ghost use Rattle.std.specs.Option.{option_and_then, option_map};
ghost use Rattle.wc_model.specs.Flow.Exact.{each_of, negate_exact};
ghost use Rattle.wc_model.specs.Flow.Tableaus.{half, half_of, slack_entries, unit_row};
ghost use Rattle.wc_simplex.specs.Inner.Columns.{IsColumn};
ghost use Rattle.wc_simplex.specs.Inner.Halves.{column_sum, half_as, node_half, row_half};

use crate::half::HalfRow;
use crate::lines::{node_columns, one_if};
use crate::numbers::{is_below_zero, negated, sum};
use crate::rows::negate_entries;
use crate::stated::StatedRow;
use std::alloc::{AllocError, Global};
use wc_model::{System, Table};

// The sum of the entries at a column's steps, along the walk.
fn column_entry(entries: &[i128], column: &[usize]) -> Option<i128>
    requires { All (λ i. i < length entries.now) column.now }
    ensures { result ≡ column_sum entries.now column.now }
{
    let mut acc = 0;
    for place in column {
        acc = sum(&acc, &entries[*place])?;
    }
    Some(acc)
}

pub fn column_entries(
    alloc: Global,
    entries: &[i128],
    columns: &[Table<usize>],
) -> Result<Option<Vec<i128>>, AllocError>
    requires { All (IsColumn (length entries.now)) columns.now }
    ensures { IfOk result (λ o. option_map (λ v. v.items) o ≡ each_of (column_sum entries.now) columns.now) }
{
    let mut found = Vec::with_capacity(alloc, columns.len())?;
    for column in columns {
        match column_entry(entries, column.items()) {
            None => return Ok(None),
            Some(entry) => found.push(entry)?,
        }
    }
    Ok(Some(found))
}

pub fn push_zeros(row: &mut Vec<i128>, count: usize) -> Result<(), AllocError>
    ensures { IfOk result (λ _. row.new.items ≡ row.old.items ++ replicate count (pos 0)) }
{
    for _place in 0..count {
        row.push(0)?;
    }
    Ok(())
}

/// 1 at one place of these many.
pub fn push_unit(row: &mut Vec<i128>, count: usize, own: usize) -> Result<(), AllocError>
    ensures { IfOk result (λ _. row.new.items ≡ row.old.items ++ unit_row count own) }
{
    for place in 0..count {
        row.push(one_if(place == own))?;
    }
    Ok(())
}

fn push_slacks(
    row: &mut Vec<i128>,
    slacks: usize,
    own: usize,
    slack: bool,
) -> Result<(), AllocError>
    ensures { IfOk result (λ _. row.new.items ≡ row.old.items ++ slack_entries slacks own slack) }
{
    if slack {
        push_unit(row, slacks, own)
    } else {
        push_zeros(row, slacks)
    }
}

fn turned(mut real: Vec<i128>, side: i128) -> Option<HalfRow>
    ensures { option_map half_as result ≡ option_and_then (λ turned. option_map (λ right. half turned right true) (negate_exact side)) (each_of negate_exact real.items) }
{
    negate_entries(&mut real)?;
    let side = negated(&side)?;
    Some(HalfRow {
        real,
        side,
        negated: true,
    })
}

// A row is negated where its right side is negative.
fn half_row(real: Vec<i128>, side: i128) -> Option<HalfRow>
    ensures { option_map half_as result ≡ half_of side real.items }
{
    if is_below_zero(&side) {
        turned(real, side)
    } else {
        Some(HalfRow {
            real,
            side,
            negated: false,
        })
    }
}

/// A row before its artificial column.
pub fn make_half(
    alloc: Global,
    columns: &[Table<usize>],
    slacks: usize,
    own: usize,
    row: &StatedRow,
) -> Result<Option<HalfRow>, AllocError>
    requires { All (IsColumn (length row.now.entries.items)) columns.now }
    ensures { IfOk result (λ o. option_map half_as o ≡ row_half columns.now slacks own row.now) }
{
    match column_entries(alloc, &row.entries, columns)? {
        None => Ok(None),
        Some(entries) => {
            let mut real = entries;
            push_slacks(&mut real, slacks, own, row.slack)?;
            Ok(half_row(real, row.side))
        }
    }
}

/// The row of a node before its artificial column: out less in is 1 at the start, and 0 elsewhere.
pub fn node_half(
    alloc: Global,
    system: &System,
    columns: &[Table<usize>],
    slacks: usize,
    node: u32,
) -> Result<HalfRow, AllocError>
    requires columns { All (IsColumn (length system.now.steps)) columns.now }
    ensures { IfOk result (λ h. half_as h ≡ node_half system.now columns.now slacks node) }
{
    let mut real = node_columns(alloc, system.steps.items(), columns, node)?;
    push_zeros(&mut real, slacks)?;
    Ok(HalfRow {
        real,
        side: one_if(node == system.start),
        negated: false,
    })
}
