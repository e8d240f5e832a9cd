ghost use Rattle.std.specs.Prelude.{◌+ℤ◌, ◌-ℤ◌, ◌*ℤ◌};
ghost use Rattle.std.specs.Option.{SomeIff};
ghost use Rattle.wc_base.specs.Arithmetic.{InRange};

/// The exact sum, or nothing where it leaves -(2^127 - 1) to 2^127 - 1.
pub fn add(a: i128, b: i128) -> Option<i128>
    ensures { SomeIff result (InRange (a +ℤ b)) (a +ℤ b) }
{
    match a.checked_add(b) {
        Some(sum) if sum != i128::MIN => Some(sum),
        _ => None,
    }
}

/// The exact difference, or nothing where it leaves -(2^127 - 1) to 2^127 - 1.
pub fn sub(a: i128, b: i128) -> Option<i128>
    ensures { SomeIff result (InRange (a -ℤ b)) (a -ℤ b) }
{
    match a.checked_sub(b) {
        Some(difference) if difference != i128::MIN => Some(difference),
        _ => None,
    }
}

/// The exact product, or nothing where it leaves -(2^127 - 1) to 2^127 - 1.
pub fn mul(a: i128, b: i128) -> Option<i128>
    ensures { SomeIff result (InRange (a *ℤ b)) (a *ℤ b) }
{
    match a.checked_mul(b) {
        Some(product) if product != i128::MIN => Some(product),
        _ => None,
    }
}
