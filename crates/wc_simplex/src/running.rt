ghost use Rattle.std.specs.Prelude.{◌≡◌, IfOk};
ghost use Rattle.wc_model.specs.Flow.RowMachine.{between, machine, second_phase};
ghost use Rattle.wc_simplex.specs.Inner.Endings.{EndsMachine, OnEnd};
ghost use Rattle.wc_simplex.specs.Inner.Machines.{IsRegular, KeepsShape, seen, shape_of};
ghost use Rattle.wc_simplex.specs.Solutions.{KeepsSolutions};

use crate::ending::Ending;
use crate::machine_end::MachineEnd;
use crate::numbers::is_below_zero;
use crate::tableau::Machine;
use std::alloc::{AllocError, Global};

impl Machine {
    fn run_second(&mut self, alloc: Global, left: u64) -> Result<MachineEnd, AllocError>
        requires { IsRegular self.old }
        ensures ends { IfOk result (λ e. EndsMachine self.new e (second_phase (shape_of self.old) left (seen self.old))) }
        ensures regular { IfOk result (λ _. IsRegular self.new) }
        ensures shape { IfOk result (λ _. KeepsShape self.old self.new) }
    {
        match self.run(alloc, false, left)? {
            Ending::Reached(_) => Ok(MachineEnd::Best),
            Ending::NumberLimit => Ok(MachineEnd::Wide),
            Ending::PivotLimit => Ok(MachineEnd::Many),
            Ending::Unbounded => Ok(MachineEnd::Endless),
        }
    }

    fn run_between(&mut self, alloc: Global, left: u64) -> Result<MachineEnd, AllocError>
        requires { IsRegular self.old }
        ensures ends { IfOk result (λ e. EndsMachine self.new e (between (shape_of self.old) left (seen self.old))) }
        ensures regular { IfOk result (λ _. IsRegular self.new) }
        ensures shape { IfOk result (λ _. KeepsShape self.old self.new) }
    {
        if is_below_zero(&self.w.entry(self.right)) {
            return Ok(MachineEnd::Infeasible);
        }
        match self.drive_out(alloc, left)? {
            Ending::Reached(left) => self.run_second(alloc, left),
            Ending::NumberLimit => Ok(MachineEnd::Wide),
            Ending::PivotLimit => Ok(MachineEnd::Many),
            Ending::Unbounded => Ok(MachineEnd::Endless),
        }
    }

    fn run_phases(&mut self, alloc: Global, most: u64) -> Result<MachineEnd, AllocError>
        requires { IsRegular self.old }
        ensures ends { IfOk result (λ e. EndsMachine self.new e (machine (shape_of self.old) most (seen self.old))) }
        ensures regular { IfOk result (λ _. IsRegular self.new) }
        ensures shape { IfOk result (λ _. KeepsShape self.old self.new) }
    {
        match self.run(alloc, true, most)? {
            Ending::Reached(left) => self.run_between(alloc, left),
            Ending::NumberLimit => Ok(MachineEnd::Wide),
            Ending::PivotLimit => Ok(MachineEnd::Many),
            Ending::Unbounded => Ok(MachineEnd::Endless),
        }
    }

    /// Both phases, with at most so many pivots. The rows keep their solutions.
    pub fn run_whole(&mut self, alloc: Global, most: u64) -> Result<MachineEnd, AllocError>
        requires { IsRegular self.old }
        ensures ends { IfOk result (λ e. EndsMachine self.new e (machine (shape_of self.old) most (seen self.old))) }
        ensures solutions { IfOk result (λ e. OnEnd e (KeepsSolutions self.old.rows.items self.new.rows.items)) }
        ensures regular { IfOk result (λ _. IsRegular self.new) }
        ensures shape { IfOk result (λ _. KeepsShape self.old self.new) }
    {
        self.run_phases(alloc, most)
    }
}
