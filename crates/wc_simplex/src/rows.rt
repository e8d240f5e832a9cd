ghost use Rattle.std.specs.Prelude.{◌≡◌, ◌<◌, ◌^◌, IfSome, ◌==◌, Some, if◌then◌else◌, int_div, length, map, not, pos, take};
ghost use Rattle.wc_model.specs.Flow.Exact.{each_of, lowest, mix_row, negate_exact, row_gcd};
ghost use Rattle.wc_model.specs.Flow.RowMachine.{entry, is_negative, is_zero, place_from, reduced};
ghost use Rattle.wc_simplex.specs.Inner.Steps.{Leaves};

use crate::numbers::{divisor_with, is_below_zero, is_nonzero, mixed, negated, quotient};
use std::marker::Model;

/// A row of the tableau: its entries at the structural, the slack and the artificial columns, its right side, and
/// its own coefficient.
#[derive(Debug, Drop)]
pub struct Row {
    entries: Vec<i128>,
}

impl Model for Row {
    ghost use Rattle.std.specs.Prelude.{List, ℤ};
    ghost use Rattle.std.specs.Coded.{coded_list, coded_ℤ};

    ghost Value = { List ℤ };

    ghost coded = { coded_list coded_ℤ };

    ghost view = { λ r. r.entries.items };
}

impl Row {
    pub fn new(entries: Vec<i128>) -> Row
        ensures { result ≡ entries.items }
    {
        Row { entries }
    }

    pub fn entries(&self) -> &[i128]
        ensures { result.now ≡ self.now }
    {
        self.entries.as_slice()
    }

    pub fn entry(&self, column: usize) -> i128
        requires { column < length self.now }
        ensures { result ≡ entry self.now column }
    {
        self.entries[column]
    }

    /// What a pivot at this column makes of another row, in lowest terms. A row with a 0 there stays.
    pub fn reduce(&mut self, pivot: &[i128], column: usize) -> Option<()>
        requires width { length self.old ≡ length pivot.now }
        requires column { column < length self.old }
        ensures reduced { Leaves (reduced column pivot.now self.old) result self.new }
        ensures kept { length self.new ≡ length self.old }
    {
        let own = self.entries[column];
        if own == 0 {
            return Some(());
        }
        mix_rows(&pivot[column], &own, &mut self.entries, pivot)?;
        lower(&mut self.entries);
        Some(())
    }

    /// The row of a pivot stays.
    pub fn reduce_other(&mut self, stays: bool, pivot: &[i128], column: usize) -> Option<()>
        requires width { length self.old ≡ length pivot.now }
        requires column { column < length self.old }
        ensures reduced { Leaves (if stays then Some self.old else reduced column pivot.now self.old) result self.new }
        ensures kept { length self.new ≡ length self.old }
    {
        if stays {
            Some(())
        } else {
            self.reduce(pivot, column)
        }
    }

    pub fn negate(&mut self) -> Option<()>
        ensures negated { Leaves (each_of negate_exact self.old) result self.new }
        ensures kept { length self.new ≡ length self.old }
    {
        negate_entries(&mut self.entries)
    }

    /// The first of these many columns at which the row is negative.
    pub fn first_negative(&self, columns: usize) -> Option<usize>
        requires { columns < length self.now }
        ensures place { result ≡ place_from is_negative 0 (take columns self.now) }
        ensures within { IfSome result (λ j. j < columns) }
    {
        first_negative(&self.entries[..columns])
    }

    /// The first of these many columns at which the row isn't 0.
    pub fn first_nonzero(&self, columns: usize) -> Option<usize>
        requires { columns < length self.now }
        ensures place { result ≡ place_from (λ x. not (is_zero x)) 0 (take columns self.now) }
        ensures within { IfSome result (λ j. j < columns) }
    {
        first_nonzero(&self.entries[..columns])
    }
}

fn first_negative(entries: &[i128]) -> Option<usize>
    ensures { result ≡ place_from is_negative 0 entries.now }
{
    for place in 0..entries.len() {
        if is_below_zero(&entries[place]) {
            return Some(place);
        }
    }
    None
}

fn first_nonzero(entries: &[i128]) -> Option<usize>
    ensures { result ≡ place_from (λ x. not (is_zero x)) 0 entries.now }
{
    for place in 0..entries.len() {
        if is_nonzero(&entries[place]) {
            return Some(place);
        }
    }
    None
}

pub fn negate_entries(row: &mut Vec<i128>) -> Option<()>
    ensures negated { Leaves (each_of negate_exact row.old.items) result row.new.items }
    ensures kept { length row.new.items ≡ length row.old.items }
{
    for place in 0..row.len() {
        let next = negated(&row[place])?;
        row[place] = next;
    }
    Some(())
}

fn mix_rows(a: &i128, b: &i128, row: &mut Vec<i128>, pivot: &[i128]) -> Option<()>
    requires { length row.old.items ≡ length pivot.now }
    ensures mixed { Leaves (mix_row a.now b.now row.old.items pivot.now) result row.new.items }
    ensures kept { length row.new.items ≡ length row.old.items }
{
    for place in 0..row.len() {
        let next = mixed(a, b, &row[place], &pivot[place])?;
        row[place] = next;
    }
    Some(())
}

// What all entries have in common. From 1 on it stays.
fn divisor(row: &[i128]) -> u128
    ensures { result ≡ row_gcd 0 row.now }
{
    let mut found = 0;
    for entry in row {
        found = divisor_with(found, entry);
        if found == 1 {
            return 1;
        }
    }
    found
}

fn divide(row: &mut Vec<i128>, by: u128)
    requires some { 0 < by }
    requires small { by < 2 ^ 127 }
    ensures { row.new.items ≡ map (λ x. int_div x (pos by)) row.old.items }
{
    for place in 0..row.len() {
        row[place] = quotient(&row[place], by);
    }
}

fn lower(row: &mut Vec<i128>)
    requires { row_gcd 0 row.old.items < 2 ^ 127 }
    ensures { row.new.items ≡ lowest row.old.items }
{
    let by = divisor(row);
    if by > 1 {
        divide(row, by);
    }
}
