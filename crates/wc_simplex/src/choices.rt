ghost use Rattle.std.specs.Prelude.{◌≡◌, ◌<◌, ◌+◌, ◌∷◌, [], None, Some, get_or, length, if◌then◌else◌, IfSome, ◌||◌, ◌&&◌, int_lt, int_le, nat_lt};
ghost use Rattle.std.specs.Option.{option_map};
ghost use Rattle.wc_model.specs.Flow.RowMachine.{beats, better, cell, choice, entering, entry, goal_row, is_positive, leaving_from};
ghost use Rattle.wc_simplex.specs.Inner.Choices.{IsPlace, chosen};
ghost use Rattle.wc_simplex.specs.Inner.Machines.{IsRegular, seen, shape_of};

use crate::choice::Choice;
use crate::numbers::{is_above_zero, product};
use crate::rows::Row;
use crate::tableau::Machine;

// The lesser one goes first, and of equal ones that of the lesser column.
fn goes_first(own: &i128, best: &i128, column: usize, best_column: usize) -> bool
    ensures { result ≡ (int_lt own.now best.now || int_le own.now best.now && nat_lt column best_column) }
{
    *own < *best || *own <= *best && column < best_column
}

impl Machine {
    pub fn cell(&self, row: usize, column: usize) -> i128
        requires regular { IsRegular self.now }
        requires row { row < length self.now.rows.items }
        requires column { column < self.now.right + 2 }
        ensures { result ≡ cell (seen self.now) row column }
    {
        self.rows[row].entry(column)
    }

    // Whether a row leaves rather than the best so far: by cross products, and a tie goes to the least basis column.
    fn row_beats(&self, column: usize, row: usize, best: usize) -> Option<bool>
        requires regular { IsRegular self.now }
        requires column { column < self.now.right }
        requires row { row < length self.now.rows.items }
        requires best { best < length self.now.rows.items }
        ensures { result ≡ beats (shape_of self.now) (seen self.now) column row best }
    {
        let own = product(&self.cell(row, self.right), &self.cell(best, column))?;
        let other = product(&self.cell(best, self.right), &self.cell(row, column))?;
        Some(goes_first(&own, &other, self.basis[row], self.basis[best]))
    }

    fn better_row(&self, column: usize, best: Option<usize>, row: usize) -> Option<usize>
        requires regular { IsRegular self.now }
        requires column { column < self.now.right }
        requires row { row < length self.now.rows.items }
        requires best { IfSome best (λ b. b < length self.now.rows.items) }
        ensures better { option_map (λ b. Some b) result ≡ better (shape_of self.now) (seen self.now) column best row }
        ensures row { IfSome result (λ b. b < length self.now.rows.items) }
    {
        match best {
            None => Some(row),
            Some(best) => Some(if self.row_beats(column, row, best)? {
                row
            } else {
                best
            }),
        }
    }

    // Only a row with an entry above 0 may leave.
    fn look_at(&self, column: usize, best: Option<usize>, row: usize) -> Option<Option<usize>>
        requires regular { IsRegular self.now }
        requires column { column < self.now.right }
        requires row { row < length self.now.rows.items }
        requires best { IfSome best (λ b. b < length self.now.rows.items) }
        ensures best { result ≡ (if is_positive (cell (seen self.now) row column) then better (shape_of self.now) (seen self.now) column best row else Some best) }
        ensures row { IfSome result (λ o. IfSome o (λ b. b < length self.now.rows.items)) }
    {
        if is_above_zero(&self.cell(row, column)) {
            Some(Some(self.better_row(column, best, row)?))
        } else {
            Some(best)
        }
    }

    fn leaving_row(&self, column: usize) -> Option<Option<usize>>
        requires regular { IsRegular self.now }
        requires column { column < self.now.right }
        ensures leaving { result ≡ leaving_from (shape_of self.now) (seen self.now) column 0 None self.now.rows.items }
        ensures row { IfSome result (λ o. IfSome o (λ b. b < length self.now.rows.items)) }
    {
        let mut best = None;
        for place in 0..self.rows.len() {
            best = self.look_at(column, best, place)?;
        }
        Some(best)
    }

    fn goal(&self, first: bool) -> &Row
        ensures { result.now ≡ goal_row first (seen self.now) }
    {
        if first { &self.w } else { &self.z }
    }

    /// The pivot that is due in a phase.
    pub fn choose(&self, first: bool) -> Choice
        requires { IsRegular self.now }
        ensures choice { chosen result ≡ choice (shape_of self.now) (goal_row first (seen self.now)) (seen self.now) }
        ensures place { IsPlace self.now result }
    {
        let Some(column) = self.entering_column(first) else {
            return Choice::Finished;
        };
        match self.leaving_row(column) {
            None => Choice::TooWide,
            Some(None) => Choice::NoRow(column),
            Some(Some(row)) => Choice::Pivots(row, column),
        }
    }

    fn entering_column(&self, first: bool) -> Option<usize>
        requires { IsRegular self.now }
        ensures column { result ≡ entering (shape_of self.now) (goal_row first (seen self.now)) }
        ensures real { IfSome result (λ j. j < self.now.real) }
    {
        self.goal(first).first_negative(self.real)
    }
}
