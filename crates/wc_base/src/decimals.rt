ghost use Rattle.std.specs.Prelude.{◌≤◌};
ghost use Rattle.wc_base.specs.Decimals.{ReadsNumber};

/// The number that digits to a base state, where it is at most `most`. Zeros may stand at the front, a sign may not.
pub fn read_number(digits: &[u8], base: u32, most: u64) -> Option<u64>
    requires some { 2 ≤ base }
    requires few { base ≤ 36 }
    ensures { ReadsNumber base digits.now most result }
{
    if digits.first() == Some(&b'+') {
        return None;
    }
    let Ok(text) = str::from_utf8(digits) else {
        return None;
    };
    let number = u64::from_str_radix(text, base).ok()?;
    if number <= most { Some(number) } else { None }
}

/// The number that decimal digits state, where it is at most `most`.
pub fn read_decimal(digits: &[u8], most: u64) -> Option<u64>
    ensures { ReadsNumber 10 digits.now most result }
{
    read_number(digits, 10, most)
}
