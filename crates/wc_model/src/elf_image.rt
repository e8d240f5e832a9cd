ghost use Rattle.std.specs.Prelude.{◌≡◌, ◌+◌, ◌≤◌, ◌^◌, All, length as list_len};

use crate::Table;
use wc_base::Addr;

/// An executable part of the program: `length` bytes from `offset` in the file stand at `start`.
/// From a program header of the gABI.
#[derive(Clone, Copy, Debug, PartialEq, Eq)]
pub struct Range {
    pub start: Addr,
    pub offset: u64,
    pub length: u32,
}

/// A named symbol: its name is `length` bytes from `offset` in the file. From a symbol of the gABI.
#[derive(Clone, Copy, Debug, PartialEq, Eq)]
pub struct Name {
    pub offset: u64,
    pub length: u64,
    pub value: Addr,
    pub function: bool,
}

/// The program as its ELF file tells it.
#[derive(Debug, Drop)]
pub struct Image {
    pub bytes: Table<u8>,
    pub ranges: Table<Range>,
    pub names: Table<Name>,
    ghost ranges_inside: { All (λ r. r.offset + r.length ≤ list_len bytes) ranges },
    ghost ranges_end: { All (λ r. r.start + r.length ≤ 2 ^ 32) ranges },
    ghost names_inside: { All (λ n. n.offset + n.length ≤ list_len bytes) names },
}
