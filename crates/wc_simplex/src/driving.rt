ghost use Rattle.std.specs.Prelude.{◌≡◌, ◌<◌, [], IfOk, get_or, length};
ghost use Rattle.std.specs.Option.{option_map};
ghost use Rattle.wc_model.specs.Flow.Exact.{each_of, negate_exact};
ghost use Rattle.wc_model.specs.Flow.RowMachine.{driven, turned, with_row};
ghost use Rattle.wc_simplex.specs.Inner.Endings.{Ends, EndsOnce, driven_once};
ghost use Rattle.wc_simplex.specs.Inner.Machines.{IsRegular, KeepsShape, LeavesMachine, seen, shape_of};

use crate::ending::Ending;
use crate::numbers::is_below_zero;
use crate::tableau::Machine;
use std::alloc::{AllocError, Global};

impl Machine {
    fn negate_row(&mut self, place: usize) -> Option<()>
        requires regular { IsRegular self.old }
        requires place { place < length self.old.rows.items }
        ensures row { LeavesMachine (option_map (with_row (seen self.old) place) (each_of negate_exact (get_or self.old.rows.items place []))) result self.new }
        ensures regular { IsRegular self.new }
        ensures shape { KeepsShape self.old self.new }
    {
        self.rows[place].negate()
    }

    // A row whose entry at the column is negative is negated.
    fn turn(&mut self, place: usize, column: usize) -> Option<()>
        requires regular { IsRegular self.old }
        requires place { place < length self.old.rows.items }
        requires column { column < self.old.right }
        ensures turned { LeavesMachine (turned place column (seen self.old)) result self.new }
        ensures regular { IsRegular self.new }
        ensures shape { KeepsShape self.old self.new }
    {
        if is_below_zero(&self.cell(place, column)) {
            self.negate_row(place)
        } else {
            Some(())
        }
    }

    // The least column at which a row isn't 0 takes its basis, where that is artificial.
    fn drive_at(&mut self, alloc: Global, place: usize, left: u64) -> Result<Ending, AllocError>
        requires regular { IsRegular self.old }
        requires place { place < length self.old.rows.items }
        ensures ending { IfOk result (λ e. EndsOnce self.new e (driven_once (shape_of self.old) left place (seen self.old))) }
        ensures regular { IfOk result (λ _. IsRegular self.new) }
        ensures shape { IfOk result (λ _. KeepsShape self.old self.new) }
    {
        if self.basis[place] < self.real {
            return Ok(Ending::Reached(left));
        }
        let Some(column) = self.rows[place].first_nonzero(self.real) else {
            return Ok(Ending::Reached(left));
        };
        if left == 0 {
            return Ok(Ending::PivotLimit);
        }
        let Some(()) = self.turn(place, column) else {
            return Ok(Ending::NumberLimit);
        };
        let Some(()) = self.pivot(alloc, place, column)? else {
            return Ok(Ending::NumberLimit);
        };
        Ok(Ending::Reached(left - 1))
    }

    /// Takes the rows whose basis is artificial in order, between the phases, with so many pivots left.
    pub fn drive_out(&mut self, alloc: Global, most: u64) -> Result<Ending, AllocError>
        requires { IsRegular self.old }
        ensures ending { IfOk result (λ e. Ends self.new e (driven (shape_of self.old) most 0 (seen self.old) self.old.rows.items)) }
        ensures regular { IfOk result (λ _. IsRegular self.new) }
        ensures shape { IfOk result (λ _. KeepsShape self.old self.new) }
    {
        let mut left = most;
        for place in 0..self.rows.len() {
            match self.drive_at(alloc, place, left)? {
                Ending::Reached(fewer) => left = fewer,
                stopped => return Ok(stopped),
            }
        }
        Ok(Ending::Reached(left))
    }
}
