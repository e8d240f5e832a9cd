ghost use Rattle.std.specs.Prelude.{◌≡◌};
ghost use Rattle.wc_asm.specs.Files.{are_names as are_names_of, is_code as is_code_of, is_name as is_name_of, is_writable_of};

use crate::layout::layout_of;
use wc_base::Addr;
use wc_model::{Table, Text};

/// A program: its words from `start` on, and its names with their addresses.
#[derive(Debug, Drop)]
pub struct Program {
    pub start: Addr,
    pub words: Table<u32>,
    pub names: Table<(Text, Addr)>,
}

fn is_code(program: &Program) -> bool
    ensures { result ≡ is_code_of program.now }
{
    let words = program.words.items().len() as u64;
    program.start % 4 == 0 && words <= 1 << 30 && program.start as u64 + 4 * words <= 1 << 32
}

fn is_name(name: &[u8]) -> bool
    ensures { result ≡ is_name_of name.now }
{
    name.len() != 0 && !name.contains(&0)
}

fn are_names(names: &[(Text, Addr)]) -> bool
    ensures { result ≡ are_names_of names.now }
{
    names.iter().all(|name| is_name(name.0.items()))
}

/// Whether an ELF file can hold the program: it starts at a multiple of 4, its code ends at 2^32 or before,
/// its names have at least a byte and no NUL, and the file has at most 16 MiB.
pub fn is_writable(program: &Program) -> bool
    ensures { result ≡ is_writable_of program.now }
{
    is_code(program) && are_names(program.names.items()) && layout_of(program).is_some()
}
