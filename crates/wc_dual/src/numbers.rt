ghost use Rattle.std.specs.Prelude.{◌+ℤ◌, ◌-ℤ◌, ◌*ℤ◌, ◌<◌, All, length};
ghost use Rattle.std.specs.Option.{SomeIff};
ghost use Rattle.wc_base.specs.Arithmetic.{InRange};
ghost use Rattle.wc_model.specs.Flow.Places.{number_at};
ghost use Rattle.wc_dual.specs.Inner.Parts.{IsSumIn};

use wc_base::{add, mul, sub};

/// The exact sum, or nothing where it leaves the range; the same of differences and products.
pub fn plus(a: &i128, b: &i128) -> Option<i128>
    ensures { SomeIff result (InRange (a.now +ℤ b.now)) (a.now +ℤ b.now) }
{
    add(*a, *b)
}

pub fn less(a: &i128, b: &i128) -> Option<i128>
    ensures { SomeIff result (InRange (a.now -ℤ b.now)) (a.now -ℤ b.now) }
{
    sub(*a, *b)
}

pub fn times(a: &i128, b: &i128) -> Option<i128>
    ensures { SomeIff result (InRange (a.now *ℤ b.now)) (a.now *ℤ b.now) }
{
    mul(*a, *b)
}

/// The sum of the numbers at some places.
pub fn sum_of(places: &[u32], x: &[i128]) -> Option<i128>
    requires { All (λ i. i < length x.now) places.now }
    ensures { IsSumIn (number_at x.now) places.now result }
{
    let mut sum = 0i128;
    for place in places {
        let Some(next) = plus(&sum, &x[*place as usize]) else {
            return None;
        };
        sum = next;
    }
    Some(sum)
}
