ghost use Rattle.std.specs.Prelude.{◌≡◌, ◌≤◌, ◌<◌, ◌==◌};
ghost use Rattle.wc_model.specs.Program.Instruction.{base as base_of, bit, destination as destination_of, field};

/// Bits `high` to `low` of the word.
pub fn field(word: u32, high: u32, low: u32) -> u32
    requires low { low ≤ high }
    requires high { high < 32 }
    ensures { result ≡ field word high low }
{
    let mask = (1u64 << (high + 1 - low)) - 1;
    ((word >> low) as u64 & mask) as u32
}

/// Whether the bit is 1.
pub fn is_set(word: u32, place: u32) -> bool
    requires { place < 32 }
    ensures { result ≡ (bit word place == 1) }
{
    field(word, place, place) == 1
}

/// The register Rd.
pub fn destination(word: u32) -> u32
    ensures { result ≡ destination_of word }
{
    field(word, 15, 12)
}

/// The register Rn.
pub fn base(word: u32) -> u32
    ensures { result ≡ base_of word }
{
    field(word, 19, 16)
}
