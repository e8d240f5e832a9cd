ghost use Rattle.std.specs.Prelude.{◌≡◌, ◌<◌, ◌≤◌, ◌^◌, MatchOption};
ghost use Rattle.wc_asm.specs.Files.{file_size, names_size as names_size_of};
ghost use Rattle.wc_asm.specs.Layouts.{IsLayout};

use crate::program::Program;
use wc_base::Addr;
use wc_model::Text;

const LIMIT: u64 = 1 << 24;

/// Where the parts of the file begin, how long the string table is, and how many zeros follow it.
#[derive(Clone, Copy)]
pub struct Layout {
    pub symbols: u32,
    pub strings: u32,
    pub size: u32,
    pub padding: u32,
    pub sections: u32,
}

/// How many bytes the names take with their NULs; nothing above 16 MiB.
fn names_size(names: &[(Text, Addr)]) -> Option<u64>
    ensures { MatchOption result (2 ^ 24 < names_size_of names.now) (λ size. (size ≡ names_size_of names.now) × (size ≤ 2 ^ 24)) }
{
    let mut size = 0u64;
    for name in names {
        size += name.0.items().len() as u64 + 1;
        if size > LIMIT {
            return None;
        }
    }
    Some(size)
}

/// The layout of the program's file; nothing where it is longer than 16 MiB.
pub fn layout_of(program: &Program) -> Option<Layout>
    ensures { MatchOption result (2 ^ 24 < file_size program.now) (IsLayout program.now) }
{
    let words = program.words.items().len() as u64;
    let names = program.names.items().len() as u64;
    if words > LIMIT || names > LIMIT {
        return None;
    }
    let size = 1 + names_size(program.names.items())?;
    let symbols = 84 + 4 * words;
    let strings = symbols + 16 * (names + 1);
    let padding = (4 - size % 4) % 4;
    let sections = strings + size + padding;
    if sections + 120 > LIMIT {
        return None;
    }
    Some(Layout {
        symbols: symbols as u32,
        strings: strings as u32,
        size: size as u32,
        padding: padding as u32,
        sections: sections as u32,
    })
}
