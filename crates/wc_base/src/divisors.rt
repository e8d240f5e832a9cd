ghost use Rattle.std.specs.Int.{IsGcd};

/// The greatest common divisor, by Euclid's steps. A remainder of 1 ends them.
pub fn gcd(a: u128, b: u128) -> u128
    ensures { IsGcd a b result }
{
    let mut large = a;
    let mut small = b;
    while small > 1 {
        let rest = large % small;
        large = small;
        small = rest;
    }
    if small == 1 { 1 } else { large }
}
