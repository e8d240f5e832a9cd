ghost use Rattle.std.specs.Prelude.{◌≡◌, ◌<◌, ◌≤◌, ◌+◌, ◌/◌, ◌^◌, ◌*ℤ◌, ◌∷◌, [], All, IfOk, IfSome, Some, get_or, if◌then◌else◌, length, pos};
ghost use Rattle.std.specs.Option.{option_map};
ghost use Rattle.wc_model.specs.Flow.Exact.{each_of, exact, gcd};
ghost use Rattle.wc_model.specs.Flow.Places.{is_listed};
ghost use Rattle.wc_model.specs.Flow.RowMachine.{is_real};
ghost use Rattle.wc_model.specs.Flow.RowResults.{common, common_from, count_in, counts_of, scaled, sum_terms, value_terms};
ghost use Rattle.wc_simplex.specs.Inner.Columns.{IsColumn};
ghost use Rattle.wc_simplex.specs.Inner.Counts.{AreColumnsAt, AreRowsOf, counted, counts_as, IsReadable, read, read_counts};
ghost use Rattle.wc_simplex.specs.Inner.Machines.{IsRegular, seen, shape_of};

use crate::numbers::{common_divisor, product, signed, sum};
use crate::tableau::Machine;
use std::alloc::{AllocError, Global};
use wc_model::{System, SystemStep, Table};

// A fraction in lowest terms.
#[derive(Clone, Copy, Debug)]
struct Fraction {
    over: u128,
    under: u128,
}

fn in_lowest(over: u128, under: u128) -> Fraction
    requires { 0 < under }
    ensures over { result.over ≡ over / gcd over under }
    ensures under { result.under ≡ under / gcd over under }
    ensures some { 0 < result.under }
    ensures most_over { result.over ≤ over }
    ensures most_under { result.under ≤ under }
{
    let common = common_divisor(over, under);
    Fraction {
        over: over / common,
        under: under / common,
    }
}

// The least common multiple.
fn multiple(den: u128, next: u128) -> Option<u128>
    requires den { den < 2 ^ 127 }
    requires next { next < 2 ^ 127 }
    requires some { 0 < next }
    ensures common { option_map pos result ≡ common den next }
    ensures small { IfSome result (λ d. d < 2 ^ 127) }
{
    let part = den / common_divisor(den, next);
    let found = product(&signed(part), &signed(next))?;
    Some(found.unsigned_abs())
}

impl Machine {
    // A basis column's count.
    fn count_in(&self, row: usize) -> Fraction
        requires regular { IsRegular self.now }
        requires readable { IsReadable (shape_of self.now) (seen self.now) }
        requires row { row < length self.now.rows.items }
        ensures over { result.over ≡ (count_in (shape_of self.now) (seen self.now) row).over }
        ensures under { result.under ≡ (count_in (shape_of self.now) (seen self.now) row).under }
        ensures some { 0 < result.under }
        ensures small_over { result.over < 2 ^ 127 }
        ensures small_under { result.under < 2 ^ 127 }
    {
        let side = self.cell(row, self.right);
        let entry = self.cell(row, self.basis[row]);
        in_lowest(side as u128, entry as u128)
    }

    // The denominator so far with that of a row. A row that was left out has none.
    fn with_row(&self, den: u128, row: usize) -> Option<u128>
        requires regular { IsRegular self.now }
        requires readable { IsReadable (shape_of self.now) (seen self.now) }
        requires row { row < length self.now.rows.items }
        requires den { den < 2 ^ 127 }
        ensures common { option_map pos result ≡ (if is_real (shape_of self.now) (get_or self.now.basis.items row 0) then common den (count_in (shape_of self.now) (seen self.now) row).under else Some (pos den)) }
        ensures small { IfSome result (λ d. d < 2 ^ 127) }
    {
        if self.basis[row] < self.real {
            multiple(den, self.count_in(row).under)
        } else {
            Some(den)
        }
    }

    // The least common multiple of the denominators, row by row.
    pub fn denominator(&self) -> Option<u128>
        requires regular { IsRegular self.now }
        requires readable { IsReadable (shape_of self.now) (seen self.now) }
        ensures common { option_map pos result ≡ common_from (shape_of self.now) (seen self.now) 0 (pos 1) self.now.basis.items }
        ensures small { IfSome result (λ d. d < 2 ^ 127) }
    {
        let mut den = 1;
        for row in 0..self.basis.len() {
            den = self.with_row(den, row)?;
        }
        Some(den)
    }

    // The count of a column over the denominator, from the row whose basis it is.
    fn scaled(&self, den: u128, row: Option<usize>) -> Option<i128>
        requires regular { IsRegular self.now }
        requires readable { IsReadable (shape_of self.now) (seen self.now) }
        requires row { IfSome row (λ r. r < length self.now.rows.items) }
        requires den { den < 2 ^ 127 }
        ensures { result ≡ scaled (shape_of self.now) (seen self.now) (pos den) row }
    {
        match row {
            None => Some(0),
            Some(row) => {
                let count = self.count_in(row);
                let part = den / count.under;
                product(&signed(count.over), &signed(part))
            }
        }
    }

    // The row whose basis is each column.
    fn rows_of(&self, alloc: Global) -> Result<Vec<Option<usize>>, AllocError>
        requires regular { IsRegular self.now }
        requires readable { IsReadable (shape_of self.now) (seen self.now) }
        requires small { self.now.right < 2 ^ 32 }
        ensures { IfOk result (λ v. AreRowsOf self.now.right self.now.basis.items 0 v.items) }
    {
        let mut rows = vec![in alloc; None; self.right + 1]?;
        for row in (0..self.basis.len()).rev() {
            rows[self.basis[row]] = Some(row);
        }
        Ok(rows)
    }
}

fn mark(found: &mut Vec<usize>, places: &[usize], column: usize)
    requires { All (λ i. i < length found.old.items) places.now }
    ensures kept { length found.new.items ≡ length found.old.items }
    ensures each { (i : _) → i < length found.old.items → get_or found.new.items i 0 ≡ (if is_listed i places.now then column else get_or found.old.items i 0) }
{
    for place in places {
        found[*place] = column;
    }
}

// The column of each step.
fn columns_at(
    alloc: Global,
    steps: usize,
    columns: &[Table<usize>],
) -> Result<Vec<usize>, AllocError>
    requires { All (IsColumn steps) columns.now }
    ensures { IfOk result (λ v. AreColumnsAt steps columns.now 0 v.items) }
{
    let mut found = vec![in alloc; columns.len(); steps]?;
    for column in (0..columns.len()).rev() {
        mark(&mut found, columns[column].items(), column);
    }
    Ok(found)
}

fn count_steps(
    alloc: Global,
    machine: &Machine,
    den: u128,
    rows: &[Option<usize>],
    at: &[usize],
) -> Result<Option<Vec<i128>>, AllocError>
    requires regular { IsRegular machine.now }
    requires readable { IsReadable (shape_of machine.now) (seen machine.now) }
    requires den { den < 2 ^ 127 }
    requires rows { All (λ o. IfSome o (λ r. r < length machine.now.rows.items)) rows.now }
    requires at { All (λ j. j < length rows.now) at.now }
    ensures { IfOk result (λ o. option_map (λ v. v.items) o ≡ each_of (counted machine.now den rows.now) at.now) }
{
    let mut counts = Vec::with_capacity(alloc, at.len())?;
    for column in at {
        match machine.scaled(den, rows[*column]) {
            None => return Ok(None),
            Some(count) => counts.push(count)?,
        }
    }
    Ok(Some(counts))
}

// The counts of the steps over the denominator.
fn step_counts(
    alloc: Global,
    system: &System,
    columns: &[Table<usize>],
    machine: &Machine,
    den: u128,
) -> Result<Option<Vec<i128>>, AllocError>
    requires regular { IsRegular machine.now }
    requires readable { IsReadable (shape_of machine.now) (seen machine.now) }
    requires den { den < 2 ^ 127 }
    requires few { length columns.now ≤ machine.now.right }
    requires small { machine.now.right < 2 ^ 32 }
    requires columns { All (IsColumn (length system.now.steps)) columns.now }
    ensures { IfOk result (λ o. option_map (λ v. v.items) o ≡ counts_of system.now (shape_of machine.now) (seen machine.now) columns.now (pos den)) }
{
    let rows = machine.rows_of(alloc)?;
    let at = columns_at(alloc, system.steps.items().len(), columns)?;
    count_steps(alloc, machine, den, &rows, &at)
}

// A step's cost as often as it is taken.
fn with_step(acc: &i128, cost: u64, count: &i128) -> Option<i128>
    ensures { result ≡ sum_terms acc.now (exact (pos cost *ℤ count.now) ∷ []) }
{
    let value = product(&(cost as i128), count)?;
    sum(acc, &value)
}

fn value(steps: &[SystemStep], counts: &[i128]) -> Option<i128>
    requires { length counts.now ≡ length steps.now }
    ensures { result ≡ sum_terms (pos 0) (value_terms steps.now counts.now) }
{
    let mut acc = 0;
    for place in 0..steps.len() {
        acc = with_step(&acc, steps[place].cost, &counts[place])?;
    }
    Some(acc)
}

/// The counts over their denominator, and their value.
#[derive(Debug, Drop)]
pub struct Counts {
    pub num: i128,
    pub den: i128,
    pub x: Vec<i128>,
}

fn with_value(steps: &[SystemStep], den: u128, x: Vec<i128>) -> Option<Counts>
    requires den { den < 2 ^ 127 }
    requires counted { length x.items ≡ length steps.now }
    ensures { option_map counts_as result ≡ option_map (λ num. read num (pos den) x.items) (sum_terms (pos 0) (value_terms steps.now x.items)) }
{
    let num = value(steps, &x)?;
    Some(Counts {
        num,
        den: den as i128,
        x,
    })
}

/// Counts and value of the last tableau.
pub fn optimum(
    alloc: Global,
    system: &System,
    columns: &[Table<usize>],
    machine: &Machine,
) -> Result<Option<Counts>, AllocError>
    requires regular { IsRegular machine.now }
    requires readable { IsReadable (shape_of machine.now) (seen machine.now) }
    requires few { length columns.now ≤ machine.now.right }
    requires small { machine.now.right < 2 ^ 32 }
    requires columns { All (IsColumn (length system.now.steps)) columns.now }
    ensures { IfOk result (λ o. option_map counts_as o ≡ read_counts system.now columns.now (shape_of machine.now) (seen machine.now)) }
{
    match machine.denominator() {
        None => Ok(None),
        Some(den) => match step_counts(alloc, system, columns, machine, den)? {
            None => Ok(None),
            Some(x) => Ok(with_value(system.steps.items(), den, x)),
        },
    }
}
