ghost use Rattle.std.specs.Prelude.{◌≡◌, ◌<◌, ◌==◌, ◌+ℤ◌, ◌*ℤ◌, ◌≤ℤ◌, pos, All, length};
ghost use Rattle.wc_base.specs.Sums.{chosen};
ghost use Rattle.wc_model.specs.Flow.Counts.{IsBounded};
ghost use Rattle.wc_model.specs.Flow.Places.{number_at};
ghost use Rattle.wc_model.specs.Flow.Systems.{IsSystem};
ghost use Rattle.wc_dual.specs.Inner.Clauses.{ChecksLoop, ChecksLoops};
ghost use Rattle.wc_dual.specs.Checks.{IsChecked};
ghost use Rattle.wc_dual.specs.Inner.Blocks.{Tells};
ghost use Rattle.wc_dual.specs.Inner.Parts.{HasWideLoop, IsExact, IsWideLoop};

use crate::checks::Check;
use crate::numbers::{plus, sum_of, times};
use wc_model::{System, SystemLoop};

/// Whether each loop's back steps are at most its bound times its entries.
pub fn check_loops(system: &System, den: &i128, x: &[i128]) -> Check
    requires system { IsSystem system.now }
    requires counted { length x.now ≡ length system.now.steps }
    ensures { ChecksLoops system.now den.now x.now result }
{
    for row in system.loops.items() {
        match check_loop(row, system.start, den, x) {
            Check::Yes => {}
            other => return other,
        }
    }
    Check::Yes
}

fn check_loop(row: &SystemLoop, start: u32, den: &i128, x: &[i128]) -> Check
    requires back { All (λ i. i < length x.now) row.now.back }
    requires entry { All (λ i. i < length x.now) row.now.entry }
    ensures { ChecksLoop start den.now x.now row.now result }
{
    let Some(back) = sum_of(row.back.items(), x) else {
        return Check::TooWide;
    };
    let Some(entry) = sum_of(row.entry.items(), x) else {
        return Check::TooWide;
    };
    let Some(entries) = entries_of(row, start, den, &entry) else {
        return Check::TooWide;
    };
    let Some(most) = allowed(row, &entries) else {
        return Check::TooWide;
    };
    if is_most(&back, &most) {
        Check::Yes
    } else {
        Check::No
    }
}

// one more entry where the head is the start
fn entries_of(row: &SystemLoop, start: u32, den: &i128, entry: &i128) -> Option<i128>
    ensures { IsExact (entry.now +ℤ chosen (row.now.head == start) den.now) result }
{
    if row.head == start {
        plus(entry, den)
    } else {
        Some(*entry)
    }
}

fn allowed(row: &SystemLoop, entries: &i128) -> Option<i128>
    ensures { IsExact (pos row.now.bound *ℤ entries.now) result }
{
    times(&(row.bound as i128), entries)
}

pub fn is_most(number: &i128, most: &i128) -> bool
    ensures { Tells (number.now ≤ℤ most.now) result }
{
    *number <= *most
}
