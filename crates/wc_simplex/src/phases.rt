ghost use Rattle.std.specs.Prelude.{◌≡◌, ◌<◌, ◌≤◌, [], IfOk, IfSome, get_or, length, not, Some, option_and_then, take};
ghost use Rattle.wc_model.specs.Flow.RowMachine.{cell, driven, driven_at, is_zero, phase, pivoted, place_from, turned};
ghost use Rattle.wc_simplex.specs.Inner.Endings.{Ends};
ghost use Rattle.wc_simplex.specs.Inner.Machines.{IsRegular, KeepsShape, LeavesMachine, seen, shape_of};

use crate::choice::Choice;
use crate::ending::Ending;
use crate::numbers::is_below_zero;
use crate::tableau::Machine;
use std::alloc::{AllocError, Global};

impl Machine {
    /// One phase, with so many pivots left. A choice comes before the count is looked at.
    pub fn run(&mut self, alloc: Global, first: bool, most: u64) -> Result<Ending, AllocError>
        requires { IsRegular self.old }
        ensures ending { IfOk result (λ e. Ends self.new e (phase first (shape_of self.old) most (seen self.old))) }
        ensures regular { IfOk result (λ _. IsRegular self.new) }
        ensures shape { IfOk result (λ _. KeepsShape self.old self.new) }
    {
        let mut left = most;
        loop {
            match self.choose(first) {
                Choice::Finished => return Ok(Ending::Reached(left)),
                Choice::TooWide => return Ok(Ending::NumberLimit),
                Choice::NoRow(_) => return Ok(Ending::Unbounded),
                Choice::Pivots(place, column) => {
                    if left == 0 {
                        return Ok(Ending::PivotLimit);
                    }
                    match self.pivot(alloc, place, column)? {
                        None => return Ok(Ending::NumberLimit),
                        Some(()) => left -= 1,
                    }
                }
            }
        }
    }
}
