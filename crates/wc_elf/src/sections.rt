ghost use Rattle.std.specs.Prelude.{◌≡◌, ◌+◌, ◌*◌, ◌≤◌, ◌==◌, IfOk, IfSome, find, length, nat_le};
ghost use Rattle.wc_elf.specs.Readings.{Checks};
ghost use Rattle.wc_elf.specs.SymbolTables.{IsSymbolTable};
ghost use Rattle.wc_model.specs.Program.Elf.{e_shnum, e_shoff, entries, sh_type};
ghost use Rattle.wc_model.specs.Program.Image.{symbol_section_checks};

use crate::fields::{half, word};
use crate::headers::{Section, section_at};
use wc_base::Fault;

const SYMBOL_TABLE: u32 = 2;

const STRING_TABLE: u32 = 3;

/// The symbols of a section, `count` from the offset `symbols` on, and its strings, `size` bytes from the
/// offset `strings` on.
#[derive(Clone, Copy)]
pub struct SymbolTable {
    pub symbols: usize,
    pub count: usize,
    pub strings: usize,
    pub size: usize,
}

/// The offset of the first header of a symbol table among the `count` section headers from `table` on.
pub fn symbol_section(file: &[u8], table: usize, count: usize) -> Option<usize>
    requires { table + 40 * count ≤ length file.now }
    ensures first { result ≡ find (λ header. sh_type file.now header == 2) (entries table 40 count) }
    ensures inside { IfSome result (λ header. header + 40 ≤ length file.now) }
{
    for index in 0..count {
        let header = table + 40 * index;
        if section_at(file, header).kind == SYMBOL_TABLE {
            return Some(header);
        }
    }
    None
}

fn is_inside(file: &[u8], section: &Section) -> bool
    ensures { result ≡ nat_le (section.now.offset + section.now.size) (length file.now) }
{
    section.offset as u64 + section.size as u64 <= file.len() as u64
}

/// The symbol table of the section header at the offset.
pub fn symbol_table(file: &[u8], header: usize) -> Result<SymbolTable, Fault>
    requires header { 52 ≤ length file.now }
    requires section { header + 40 ≤ length file.now }
    requires sections { e_shoff file.now + 40 * e_shnum file.now ≤ length file.now }
    ensures checks { Checks (symbol_section_checks file.now header) result }
    ensures table { IfOk result (IsSymbolTable file.now header) }
{
    let bad = Err(Fault::BadTable(header as u64));
    let symbols = section_at(file, header);
    if symbols.size % 16 != 0 {
        return bad;
    }
    if !is_inside(file, &symbols) {
        return Err(Fault::Truncated(symbols.offset as u64));
    }
    if symbols.link >= half(file, 48) as u32 {
        return bad;
    }
    let strings = section_at(file, word(file, 32) as usize + 40 * symbols.link as usize);
    if strings.kind != STRING_TABLE {
        return bad;
    }
    if !is_inside(file, &strings) {
        return Err(Fault::Truncated(strings.offset as u64));
    }
    Ok(SymbolTable {
        symbols: symbols.offset as usize,
        count: symbols.size as usize / 16,
        strings: strings.offset as usize,
        size: strings.size as usize,
    })
}
