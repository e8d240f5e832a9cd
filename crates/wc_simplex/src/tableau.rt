ghost use Rattle.std.specs.Prelude.{◌≡◌, ◌<◌, [], get_or, length, true, IfOk, IfSome};
ghost use Rattle.wc_model.specs.Flow.RowMachine.{cell, is_positive, pivoted, reduced_others};
ghost use Rattle.wc_simplex.specs.Inner.Machines.{AreWide, IsRegular, KeepsShape, LeavesMachine, seen};
ghost use Rattle.wc_simplex.specs.Inner.Steps.{Leaves};
ghost use Rattle.wc_simplex.specs.Solutions.{KeepsSolutions};

use crate::rows::Row;
use std::alloc::{AllocError, Global};

/// The tableau of the row machine: the rows, the goal rows of both phases, and the basis column of each row. The
/// first `real` columns are structural or slack ones; the right side stands at `right`.
#[derive(Debug, Drop)]
pub struct Machine {
    pub rows: Vec<Row>,
    pub z: Row,
    pub w: Row,
    pub basis: Vec<usize>,
    pub real: usize,
    pub right: usize,
}

fn reduce_others(rows: &mut Vec<Row>, place: usize, pivot: &[i128], column: usize) -> Option<()>
    requires wide { AreWide (length pivot.now) rows.old.items }
    requires column { column < length pivot.now }
    ensures reduced { Leaves (reduced_others place column pivot.now 0 rows.old.items) result rows.new.items }
    ensures kept { length rows.new.items ≡ length rows.old.items }
    ensures wide { AreWide (length pivot.now) rows.new.items }
{
    for index in 0..rows.len() {
        rows[index].reduce_other(index == place, pivot, column)?;
    }
    Some(())
}

impl Machine {
    // The pivot's row is given beside the tableau, where it stays.
    fn pivot_by(&mut self, pivot: &[i128], place: usize, column: usize) -> Option<()>
        requires regular { IsRegular self.old }
        requires pivot { pivot.now ≡ get_or self.old.rows.items place [] }
        requires place { place < length self.old.rows.items }
        requires column { column < self.old.right }
        ensures pivoted { LeavesMachine (pivoted place column (seen self.old)) result self.new }
        ensures regular { IsRegular self.new }
        ensures shape { KeepsShape self.old self.new }
    {
        reduce_others(&mut self.rows, place, pivot, column)?;
        self.z.reduce(pivot, column)?;
        self.w.reduce(pivot, column)?;
        self.basis[place] = column;
        Some(())
    }

    /// Pivots at a row and a column. Nothing is known of the tableau where a number left the range.
    pub fn pivot(
        &mut self,
        alloc: Global,
        place: usize,
        column: usize,
    ) -> Result<Option<()>, AllocError>
        requires regular { IsRegular self.old }
        requires place { place < length self.old.rows.items }
        requires column { column < self.old.right }
        ensures pivoted { IfOk result (λ o. LeavesMachine (pivoted place column (seen self.old)) o self.new) }
        ensures solutions { IfOk result (λ o. is_positive (cell (seen self.old) place column) ≡ true → IfSome o (λ _. KeepsSolutions self.old.rows.items self.new.rows.items)) }
        ensures regular { IsRegular self.new }
        ensures shape { KeepsShape self.old self.new }
    {
        let pivot = self.rows[place].entries().to_vec(alloc)?;
        Ok(self.pivot_by(pivot.as_slice(), place, column))
    }
}
