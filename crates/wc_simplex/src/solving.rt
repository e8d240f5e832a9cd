ghost use Rattle.std.specs.Prelude.{◌≡◌, ◌<◌, ◌≤◌, All, IfOk, Some, length, pos};
ghost use Rattle.wc_model.specs.Flow.Cells.{cells_of, columns_of};
ghost use Rattle.wc_model.specs.Flow.Certificates.{ArePrices, Prices, SolutionHolds, scaled};
ghost use Rattle.wc_model.specs.Flow.Ends.{system_ends};
ghost use Rattle.wc_model.specs.Flow.RowResults.{read_end, read_ray, read_solution};
ghost use Rattle.wc_model.specs.Flow.Systems.{IsSystem};
ghost use Rattle.wc_model.specs.Flow.Tableaus.{starting};
ghost use Rattle.wc_model.specs.Flow.Walks.{Joins};
ghost use Rattle.wc_model.specs.Program.Reaching.{IsLive};
ghost use Rattle.wc_simplex.specs.Inner.Columns.{ArePassed, IsChain, IsColumn};
ghost use Rattle.wc_simplex.specs.Inner.Counts.{IsReadable};
ghost use Rattle.wc_simplex.specs.Inner.Finishes.{IsFine, IsPossible, Reads, end_as};
ghost use Rattle.wc_simplex.specs.Inner.Machines.{seen, shape_of};
ghost use Rattle.wc_simplex.specs.Inner.Prices.{IsEnd};
ghost use Rattle.wc_simplex.specs.Inner.Starts.{start_as};
ghost use Rattle.wc_simplex.specs.Outcomes.{IsAnswer, IsRefuted};

use crate::columns::passed;
use crate::fault::SolveFault;
use crate::machine_end::MachineEnd;
use crate::ordering::columns;
use crate::reading::{ray, solution};
use crate::start::Start;
use crate::starts::begin;
use std::alloc::{AllocError, Global};
use wc_model::{Ray, Solution, System, Table};

const MOST_PIVOTS: u64 = 5000;

fn found(solution: Option<Solution>) -> Result<Solution, SolveFault>
    ensures { Reads (read_solution solution) result }
{
    match solution {
        Some(solution) => Ok(solution),
        None => Err(SolveFault::NumberLimit),
    }
}

fn refuted(ray: Option<Ray>) -> Result<Solution, SolveFault>
    ensures { Reads (read_ray ray) result }
{
    match ray {
        Some(ray) => Err(SolveFault::NoPath(ray)),
        None => Err(SolveFault::NumberLimit),
    }
}

// The answer at the machine's end. It never ends for want of a row that leaves.
fn finish(
    alloc: Global,
    system: &System,
    columns: &[Table<usize>],
    passed: &[Option<usize>],
    end: &Start,
    ending: MachineEnd,
) -> Result<Result<Solution, SolveFault>, AllocError>
    requires system { IsSystem system.now }
    requires passed { ArePassed system.now passed.now }
    requires columns { All (IsColumn (length system.now.steps)) columns.now }
    requires chains { All (IsChain system.now) columns.now }
    requires end { IsEnd system.now end.now }
    requires few { length columns.now ≤ end.now.machine.right }
    requires possible { IsPossible ending (IsReadable (shape_of end.now.machine) (seen end.now.machine)) }
    ensures { IfOk result (Reads (read_end system.now columns.now (start_as end.now) (end_as ending (seen end.now.machine)))) }
{
    match ending {
        MachineEnd::Best => Ok(found(solution(alloc, system, columns, passed, end)?)),
        MachineEnd::Infeasible => Ok(refuted(ray(alloc, system, columns, passed, end)?)),
        MachineEnd::Wide => Ok(Err(SolveFault::NumberLimit)),
        MachineEnd::Many => Ok(Err(SolveFault::PivotLimit)),
        MachineEnd::Endless => Ok(Err(SolveFault::NumberLimit)),
    }
}

fn run(
    alloc: Global,
    system: &System,
    columns: &[Table<usize>],
    passed: &[Option<usize>],
    start: Start,
) -> Result<Result<Solution, SolveFault>, AllocError>
    requires system { IsSystem system.now }
    requires passed { ArePassed system.now passed.now }
    requires columns { All (IsColumn (length system.now.steps)) columns.now }
    requires ordered { columns.now ≡ columns_of system.now }
    requires small { cells_of system.now ≤ 250000 }
    requires starts { starting system.now columns.now ≡ Some (start_as start) }
    requires live { (p : _) → p < system.now.nodes → IsLive (Joins system_ends system.now.steps) system.now.start p }
    requires priced { (prices : Prices) × ArePrices system.now (scaled (pos 1)) prices }
    ensures { IfOk result (IsFine system.now) }
{
    let mut end = start;
    let ending = end.machine.run_whole(alloc, MOST_PIVOTS)?;
    finish(alloc, system, columns, passed, &end, ending)
}

fn solve_within(alloc: Global, system: &System) -> Result<Result<Solution, SolveFault>, AllocError>
    requires system { IsSystem system.now }
    requires small { cells_of system.now ≤ 250000 }
    requires live { (p : _) → p < system.now.nodes → IsLive (Joins system_ends system.now.steps) system.now.start p }
    requires priced { (prices : Prices) × ArePrices system.now (scaled (pos 1)) prices }
    ensures { IfOk result (IsFine system.now) }
{
    let passed = passed(alloc, system)?;
    let columns = columns(alloc, system, &passed)?;
    match begin(alloc, system, &columns, &passed)? {
        None => Ok(Err(SolveFault::NumberLimit)),
        Some(start) => run(alloc, system, &columns, &passed, start),
    }
}

/// The optimum of a system with limits, with prices that show it, by the simplex method over whole numbers. After
/// Dantzig 1951 and Bland 1977. A number that leaves -(2^127 - 1) to 2^127 - 1, a pivot too many and counts of which
/// none are feasible are its faults, each exactly where the definition of the row machine has it.
pub fn solve(alloc: Global, system: &System) -> Result<Solution, SolveFault>
    requires system { IsSystem system.now }
    requires small { cells_of system.now ≤ 250000 }
    requires live { (p : _) → p < system.now.nodes → IsLive (Joins system_ends system.now.steps) system.now.start p }
    requires priced { (prices : Prices) × ArePrices system.now (scaled (pos 1)) prices }
    ensures answer { IsAnswer system.now result }
    ensures holds { IfOk result (SolutionHolds system.now) }
    ensures ray { IsRefuted system.now result }
{
    match solve_within(alloc, system) {
        Ok(answer) => answer,
        Err(error) => Err(SolveFault::Memory(error)),
    }
}
