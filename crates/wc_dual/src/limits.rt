ghost use Rattle.std.specs.Prelude.{◌≡◌, ◌*ℤ◌, ℕ, IsTrue, All, length, pos};
ghost use Rattle.wc_model.specs.Flow.Counts.{IsLimited, out_of};
ghost use Rattle.wc_model.specs.Flow.Places.{number_at};
ghost use Rattle.wc_dual.specs.Inner.Clauses.{ChecksLimit, ChecksLimits, IsFactorSum, IsFactorTerm};
ghost use Rattle.wc_dual.specs.Checks.{IsChecked};
ghost use Rattle.wc_dual.specs.Inner.Limits.{HasWideLimit, HasWideTerm, IsWideLimit, IsWideTerm, factor_term};
ghost use Rattle.wc_dual.specs.Inner.Passes.{IsSum, IsTerm};
ghost use Rattle.wc_dual.specs.Inner.Sources.{AreBySource};

use crate::checks::Check;
use crate::loops::is_most;
use crate::numbers::{plus, times};
use crate::sources::{are_by_source, visits_of};
use wc_model::{System, SystemLimit, SystemStep};

/// Whether in each limit the factors times the visits are at most the constant.
pub fn check_limits(system: &System, den: &i128, x: &[i128]) -> Check
    requires { length x.now ≡ length system.now.steps }
    ensures { ChecksLimits system.now den.now x.now result }
{
    let steps = system.steps.items();
    let sorted = are_by_source(steps);
    for row in system.limits.items() {
        match check_limit(row, steps, sorted, den, x) {
            Check::Yes => {}
            other => return other,
        }
    }
    Check::Yes
}

fn check_limit(
    row: &SystemLimit,
    steps: &[SystemStep],
    sorted: bool,
    den: &i128,
    x: &[i128],
) -> Check
    requires sorted { IsTrue sorted → AreBySource steps.now }
    requires counted { length x.now ≡ length steps.now }
    ensures { ChecksLimit steps.now den.now x.now row.now result }
{
    let Some(sum) = factors_times(row.factors.items(), steps, sorted, x) else {
        return Check::TooWide;
    };
    let Some(most) = times(&row.constant, den) else {
        return Check::TooWide;
    };
    if is_most(&sum, &most) {
        Check::Yes
    } else {
        Check::No
    }
}

// the sum of factor times visits
fn factors_times(
    factors: &[(u32, i128)],
    steps: &[SystemStep],
    sorted: bool,
    x: &[i128],
) -> Option<i128>
    requires sorted { IsTrue sorted → AreBySource steps.now }
    requires counted { length x.now ≡ length steps.now }
    ensures { IsFactorSum steps.now x.now factors.now result }
{
    let mut sum = 0i128;
    for factor in factors {
        let Some(next) = factor_times(factor, steps, sorted, x, &sum) else {
            return None;
        };
        sum = next;
    }
    Some(sum)
}

fn factor_times(
    factor: &(u32, i128),
    steps: &[SystemStep],
    sorted: bool,
    x: &[i128],
    sum: &i128,
) -> Option<i128>
    requires sorted { IsTrue sorted → AreBySource steps.now }
    requires counted { length x.now ≡ length steps.now }
    ensures { IsFactorTerm steps.now x.now factor.now sum.now result }
{
    let Some(visits) = visits_of(steps, sorted, factor.0, x) else {
        return None;
    };
    let Some(product) = times(&factor.1, &visits) else {
        return None;
    };
    plus(sum, &product)
}
