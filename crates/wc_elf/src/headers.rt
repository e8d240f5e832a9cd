ghost use Rattle.std.specs.Prelude.{◌≡◌, ◌+◌, ◌≤◌, length};
ghost use Rattle.wc_elf.specs.Entries.{IsSection, IsSegment, IsSymbol};

use crate::fields::{half, word};

const LOAD: u32 = 1;

/// A program header: `size` bytes from `offset` in the file stand at `address`.
#[derive(Clone, Copy)]
pub struct Segment {
    pub executable: bool,
    pub offset: u32,
    pub address: u32,
    pub size: u32,
}

/// A section header.
#[derive(Clone, Copy)]
pub struct Section {
    pub kind: u32,
    pub offset: u32,
    pub size: u32,
    pub link: u32,
}

/// A symbol: its name begins at `name` in the string table.
#[derive(Clone, Copy)]
pub struct Symbol {
    pub name: u32,
    pub value: u32,
    pub kind: u8,
    pub section: u16,
}

pub fn segment_at(file: &[u8], header: usize) -> Segment
    requires { header + 32 ≤ length file.now }
    ensures { IsSegment file.now header result }
{
    Segment {
        executable: word(file, header) == LOAD && word(file, header + 24) % 2 == 1,
        offset: word(file, header + 4),
        address: word(file, header + 8),
        size: word(file, header + 16),
    }
}

pub fn section_at(file: &[u8], header: usize) -> Section
    requires { header + 40 ≤ length file.now }
    ensures { IsSection file.now header result }
{
    Section {
        kind: word(file, header + 4),
        offset: word(file, header + 16),
        size: word(file, header + 20),
        link: word(file, header + 24),
    }
}

pub fn symbol_at(file: &[u8], symbol: usize) -> Symbol
    requires { symbol + 16 ≤ length file.now }
    ensures { IsSymbol file.now symbol result }
{
    Symbol {
        name: word(file, symbol),
        value: word(file, symbol + 4),
        kind: file[symbol + 12] % 16,
        section: half(file, symbol + 14),
    }
}
