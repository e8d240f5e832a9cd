ghost use Rattle.std.specs.Prelude.{◌≡◌, ◌<◌, ◌+◌, ◌^◌, ◌++◌, ◌∷◌, [], All, IfOk, IfSome, get_or, length, map, pos, replicate, take};
ghost use Rattle.std.specs.List.{range_with_len};
ghost use Rattle.std.specs.Option.{option_and_then, option_map};
ghost use Rattle.wc_model.specs.Flow.Cells.{columns_of};
ghost use Rattle.wc_model.specs.Flow.Exact.{add_rows, each_of, negate_exact};
ghost use Rattle.wc_model.specs.Flow.Systems.{IsSystem};
ghost use Rattle.wc_model.specs.Flow.Tableaus.{column_cost, cost_row, goal_start, lines_of, starting, sum_of_rows, whole_row, whole_rows};
ghost use Rattle.wc_simplex.specs.Inner.Columns.{ArePassed, IsColumn};
ghost use Rattle.wc_simplex.specs.Inner.Halves.{half_as, line_of};
ghost use Rattle.wc_simplex.specs.Inner.Machines.{IsRegular};
ghost use Rattle.wc_simplex.specs.Inner.Starts.{IsBegun, start_as, start_from};
ghost use Rattle.wc_simplex.specs.Inner.Steps.{Leaves};

use crate::half::HalfRow;
use crate::halves::{column_entries, push_unit, push_zeros};
use crate::making::make_halves;
use crate::numbers::sum;
use crate::rows::{Row, negate_entries};
use crate::start::Start;
use crate::tableau::Machine;
use std::alloc::{AllocError, Global};
use wc_model::{System, SystemStep, Table};

fn cost_of(step: &SystemStep) -> i128
    ensures { result ≡ pos step.now.cost }
{
    step.cost as i128
}

fn costs(alloc: Global, steps: &[SystemStep]) -> Result<Vec<i128>, AllocError>
    ensures { IfOk result (λ v. v.items ≡ map (λ t. pos t.cost) steps.now) }
{
    steps.iter().map(|step| cost_of(step)).collect(alloc)
}

// Each number of a row is added.
fn add_into(sums: &mut Vec<i128>, row: &[i128]) -> Option<()>
    requires { length sums.old.items ≡ length row.now }
    ensures added { Leaves (add_rows sums.old.items row.now) result sums.new.items }
    ensures kept { length sums.new.items ≡ length sums.old.items }
{
    for place in 0..sums.len() {
        let next = sum(&sums[place], &row[place])?;
        sums[place] = next;
    }
    Some(())
}

// A row before its artificial column, with its right side.
fn add_half(alloc: Global, sums: &mut Vec<i128>, half: &HalfRow) -> Result<Option<()>, AllocError>
    requires { length sums.old.items ≡ length half.now.real.items + 1 }
    ensures added { IfOk result (λ o. Leaves (add_rows sums.old.items (line_of half.now)) o sums.new.items) }
    ensures kept { IfOk result (λ _. length sums.new.items ≡ length sums.old.items) }
{
    let mut row = half.real.as_slice().to_vec(alloc)?;
    row.push(half.side)?;
    Ok(add_into(sums, &row))
}

fn sum_rows(
    alloc: Global,
    width: usize,
    halves: &[HalfRow],
) -> Result<Option<Vec<i128>>, AllocError>
    requires { All (λ h. width ≡ length h.real.items + 1) halves.now }
    ensures sums { IfOk result (λ o. option_map (λ v. v.items) o ≡ sum_of_rows (replicate width (pos 0)) (map line_of halves.now)) }
    ensures wide { IfOk result (λ o. IfSome o (λ v. length v.items ≡ width)) }
{
    let mut sums = vec![in alloc; 0; width]?;
    for half in halves {
        match add_half(alloc, &mut sums, half)? {
            None => return Ok(None),
            Some(()) => {}
        }
    }
    Ok(Some(sums))
}

fn finish_goal(sums: Vec<i128>, real: usize, rows: usize) -> Result<Row, AllocError>
    requires { real < length sums.items }
    ensures { IfOk result (λ r. r ≡ goal_start rows (take real sums.items) (get_or sums.items real (pos 0) ∷ [])) }
{
    let mut row = sums;
    let side = row[real];
    row.truncate(real);
    push_zeros(&mut row, rows)?;
    row.push(side)?;
    row.push(1)?;
    Ok(Row::new(row))
}

// The goal row of the first phase: minus the sum of the rows.
fn first_goal(alloc: Global, real: usize, halves: &[HalfRow]) -> Result<Option<Row>, AllocError>
    requires few { real < 2 ^ 32 }
    requires wide { All (λ h. length h.real.items ≡ real) halves.now }
    ensures { IfOk result (λ o. o ≡ option_map (λ sums. goal_start (length halves.now) (take real sums) (get_or sums real (pos 0) ∷ [])) (option_and_then (each_of negate_exact) (sum_of_rows (replicate (real + 1) (pos 0)) (map line_of halves.now)))) }
{
    match sum_rows(alloc, real + 1, halves)? {
        None => Ok(None),
        Some(found) => {
            let mut sums = found;
            match negate_entries(&mut sums) {
                None => Ok(None),
                Some(()) => Ok(Some(finish_goal(sums, real, halves.len())?)),
            }
        }
    }
}

fn finish_costs(costs: Vec<i128>, more: usize) -> Result<Option<Row>, AllocError>
    ensures { IfOk result (λ o. o ≡ option_map (λ turned. turned ++ replicate more (pos 0) ++ pos 0 ∷ pos 1 ∷ []) (each_of negate_exact costs.items)) }
{
    let mut row = costs;
    match negate_entries(&mut row) {
        None => Ok(None),
        Some(()) => {
            push_zeros(&mut row, more)?;
            row.push(0)?;
            row.push(1)?;
            Ok(Some(Row::new(row)))
        }
    }
}

// The goal row of the second phase: minus the costs.
fn second_goal(
    alloc: Global,
    system: &System,
    columns: &[Table<usize>],
    slacks: usize,
    rows: usize,
) -> Result<Option<Row>, AllocError>
    requires columns { All (IsColumn (length system.now.steps)) columns.now }
    requires slacks { slacks < 2 ^ 32 }
    requires rows { rows < 2 ^ 32 }
    ensures { IfOk result (λ o. o ≡ option_map (cost_row slacks rows) (each_of (λ column. option_and_then negate_exact (column_cost system.now column)) columns.now)) }
{
    let costs = costs(alloc, system.steps.items())?;
    match column_entries(alloc, &costs, columns)? {
        None => Ok(None),
        Some(sums) => finish_costs(sums, slacks + rows),
    }
}

fn make_row(alloc: Global, half: &HalfRow, rows: usize, place: usize) -> Result<Row, AllocError>
    ensures { IfOk result (λ r. r ≡ whole_row rows place (half_as half.now)) }
{
    let mut row = half.real.as_slice().to_vec(alloc)?;
    push_unit(&mut row, rows, place)?;
    row.push(half.side)?;
    row.push(0)?;
    Ok(Row::new(row))
}

fn make_rows(alloc: Global, halves: &[HalfRow]) -> Result<Vec<Row>, AllocError>
    ensures { IfOk result (λ v. v.items ≡ whole_rows (length halves.now) 0 (map half_as halves.now)) }
{
    let mut rows = Vec::with_capacity(alloc, halves.len())?;
    for place in 0..halves.len() {
        rows.push(make_row(alloc, &halves[place], halves.len(), place)?)?;
    }
    Ok(rows)
}

fn first_basis(alloc: Global, real: usize, rows: usize) -> Result<Vec<usize>, AllocError>
    requires real { real < 2 ^ 32 }
    requires rows { rows < 2 ^ 32 }
    ensures { IfOk result (λ v. v.items ≡ range_with_len real rows) }
{
    let mut basis = Vec::with_capacity(alloc, rows)?;
    for place in 0..rows {
        basis.push(real + place)?;
    }
    Ok(basis)
}

fn signs(alloc: Global, halves: &[HalfRow]) -> Result<Vec<bool>, AllocError>
    ensures { IfOk result (λ v. v.items ≡ map (λ h. h.negated) (map half_as halves.now)) }
{
    let mut signs = Vec::with_capacity(alloc, halves.len())?;
    for half in halves {
        signs.push(half.negated)?;
    }
    Ok(signs)
}

fn begin_with(
    alloc: Global,
    halves: &[HalfRow],
    real: usize,
    z: Row,
    w: Row,
) -> Result<Start, AllocError>
    requires real { real < 2 ^ 32 }
    requires rows { length halves.now < 2 ^ 32 }
    ensures machine { IfOk result (λ s. IsBegun halves.now real z w s) }
{
    let rows = halves.len();
    Ok(Start {
        machine: Machine {
            rows: make_rows(alloc, halves)?,
            z,
            w,
            basis: first_basis(alloc, real, rows)?,
            real,
            right: real + rows,
        },
        negated: signs(alloc, halves)?,
    })
}

fn begin_from(
    alloc: Global,
    system: &System,
    columns: &[Table<usize>],
    slacks: usize,
    halves: &[HalfRow],
) -> Result<Option<Start>, AllocError>
    requires columns { All (IsColumn (length system.now.steps)) columns.now }
    requires real { length columns.now + slacks < 2 ^ 32 }
    requires rows { length halves.now < 2 ^ 32 }
    requires wide { All (λ h. length h.real.items ≡ length columns.now + slacks) halves.now }
    ensures { IfOk result (λ o. option_map start_as o ≡ start_from system.now columns.now slacks (map half_as halves.now)) }
{
    let real = columns.len() + slacks;
    match second_goal(alloc, system, columns, slacks, halves.len())? {
        None => Ok(None),
        Some(z) => match first_goal(alloc, real, halves)? {
            None => Ok(None),
            Some(w) => Ok(Some(begin_with(alloc, halves, real, z, w)?)),
        },
    }
}

/// The tableau that the machine starts from.
pub fn begin(
    alloc: Global,
    system: &System,
    columns: &[Table<usize>],
    passed: &[Option<usize>],
) -> Result<Option<Start>, AllocError>
    requires system { IsSystem system.now }
    requires passed { ArePassed system.now passed.now }
    requires columns { All (IsColumn (length system.now.steps)) columns.now }
    requires ordered { columns.now ≡ columns_of system.now }
    requires few { length columns.now + length system.now.loops + length system.now.limits + length (lines_of system.now) < 2 ^ 32 }
    ensures { IfOk result (λ o. option_map start_as o ≡ starting system.now columns.now) }
{
    let slacks = system.loops.items().len() + system.limits.items().len();
    match make_halves(alloc, system, columns, passed, slacks)? {
        None => Ok(None),
        Some(halves) => begin_from(alloc, system, columns, slacks, &halves),
    }
}
