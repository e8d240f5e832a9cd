ghost use Rattle.std.specs.Prelude.{◌≡◌, ◌<◌, ◌^◌, ◌-ℤ◌, ◌*ℤ◌, not, pos, int_div, unsigned_abs};
ghost use Rattle.wc_model.specs.Flow.Exact.{add_exact, exact, gcd, mix, negate_exact};
ghost use Rattle.wc_model.specs.Flow.RowMachine.{is_negative, is_positive, is_zero};

use wc_base::{add, mul, sub};

// Numbers from -(2^127 - 1) to 2^127 - 1, and nothing where a result leaves them.

pub fn product(a: &i128, b: &i128) -> Option<i128>
    ensures { result ≡ exact (a.now *ℤ b.now) }
{
    if *b == 0 {
        return Some(0);
    }
    mul(*a, *b)
}

pub fn difference(a: &i128, b: &i128) -> Option<i128>
    ensures { result ≡ exact (a.now -ℤ b.now) }
{
    sub(*a, *b)
}

pub fn sum(a: &i128, b: &i128) -> Option<i128>
    ensures { result ≡ add_exact a.now b.now }
{
    add(*a, *b)
}

pub fn negated(a: &i128) -> Option<i128>
    ensures { result ≡ negate_exact a.now }
{
    sub(0, *a)
}

/// a times x less b times y, of which most are 0.
pub fn mixed(a: &i128, b: &i128, x: &i128, y: &i128) -> Option<i128>
    ensures { result ≡ mix a.now b.now x.now y.now }
{
    if *y == 0 {
        return product(a, x);
    }
    let left = product(a, x)?;
    let right = product(b, y)?;
    difference(&left, &right)
}

pub fn common_divisor(a: u128, b: u128) -> u128
    ensures { result ≡ gcd a b }
{
    wc_base::gcd(a, b)
}

/// The common divisor so far with an entry.
pub fn divisor_with(found: u128, entry: &i128) -> u128
    ensures { result ≡ gcd found (unsigned_abs entry.now) }
{
    if *entry == 0 {
        return found;
    }
    common_divisor(found, entry.unsigned_abs())
}

pub fn quotient(entry: &i128, by: u128) -> i128
    requires some { 0 < by }
    requires small { by < 2 ^ 127 }
    ensures { result ≡ int_div entry.now (pos by) }
{
    if *entry == 0 {
        return 0;
    }
    *entry / by as i128
}

pub fn signed(x: u128) -> i128
    requires { x < 2 ^ 127 }
    ensures { result ≡ pos x }
{
    x as i128
}

pub fn is_below_zero(x: &i128) -> bool
    ensures { result ≡ is_negative x.now }
{
    *x < 0
}

pub fn is_above_zero(x: &i128) -> bool
    ensures { result ≡ is_positive x.now }
{
    *x > 0
}

pub fn is_nonzero(x: &i128) -> bool
    ensures { result ≡ not (is_zero x.now) }
{
    *x < 0 || *x > 0
}
