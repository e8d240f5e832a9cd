ghost use Rattle.std.specs.Prelude.{◌≡◌, ◌+◌, ◌*◌, ◌++◌, ◌≤◌, ◌==◌, ◌&&◌, ◌||◌, not, All, IfOk, IfSome, OnOk, Some, flat_map, length, option_to_list};
ghost use Rattle.wc_elf.specs.Readings.{Checks, Reads};
ghost use Rattle.wc_elf.specs.Strings.{AreEnds};
ghost use Rattle.wc_elf.specs.SymbolTables.{IsSymbolTable};
ghost use Rattle.wc_model.specs.Program.Elf.{contents, e_shnum, e_shoff, linked, symbols};
ghost use Rattle.wc_model.specs.Program.Image.{label_checks, label_name, name_checks, names_of, section_names as section_names_of, symbol_checks};

use crate::fields::{half, word};
use crate::headers::{Symbol, symbol_at};
use crate::sections::{SymbolTable, symbol_section, symbol_table};
use crate::strings::{block_ends, text_length};
use std::alloc::{AllocError, Global};
use wc_base::{Fault, Trouble};
use wc_model::Name;

const NOTYPE: u8 = 0;

const FUNC: u8 = 2;

fn is_label(symbol: &Symbol) -> bool
    ensures { result ≡ (not (symbol.now.section == 0) && (symbol.now.kind == 0 || symbol.now.kind == 2) && not (symbol.now.name == 0)) }
{
    symbol.section != 0 && (symbol.kind == NOTYPE || symbol.kind == FUNC) && symbol.name != 0
}

/// The name of the symbol at the offset, where it is a label with a name.
fn name_at(
    file: &[u8],
    header: usize,
    table: &SymbolTable,
    ends: &[usize],
    place: usize,
) -> Result<Option<Name>, Fault>
    requires table { IsSymbolTable file.now header table.now }
    requires ends { AreEnds (contents file.now (linked file.now header)) ends.now }
    requires symbol { place + 16 ≤ length file.now }
    ensures checks { Checks (label_checks file.now header place) result }
    ensures name { IfOk result (λ name. option_to_list name ≡ label_name file.now header place) }
    ensures inside { IfOk result (λ name. IfSome name (λ n. n.offset + n.length ≤ length file.now)) }
{
    let symbol = symbol_at(file, place);
    if !is_label(&symbol) {
        return Ok(None);
    }
    let strings = &file[table.strings..table.strings + table.size];
    match text_length(strings, ends, symbol.name as usize) {
        None => Err(Fault::BadTable(place as u64)),
        Some(0) => Ok(None),
        Some(length) => Ok(Some(Name {
            offset: (table.strings + symbol.name as usize) as u64,
            length: length as u64,
            value: symbol.value,
            function: symbol.kind == FUNC,
        })),
    }
}

/// Adds the name of the symbol at the offset, where it is a label with a name.
fn add_name(
    names: &mut Vec<Name>,
    file: &[u8],
    header: usize,
    table: &SymbolTable,
    ends: &[usize],
    place: usize,
) -> Result<(), Trouble>
    requires table { IsSymbolTable file.now header table.now }
    requires ends { AreEnds (contents file.now (linked file.now header)) ends.now }
    requires symbol { place + 16 ≤ length file.now }
    ensures reads { Reads (label_checks file.now header place) (λ _. names.new.items ≡ names.old.items ++ label_name file.now header place) result }
    ensures inside { OnOk result (All (λ n. n.offset + n.length ≤ length file.now) names.old.items → All (λ n. n.offset + n.length ≤ length file.now) names.new.items) }
{
    match name_at(file, header, table, ends, place) {
        Ok(Some(name)) => match names.push(name) {
            Ok(()) => Ok(()),
            Err(_) => Err(Trouble::Memory(AllocError)),
        },
        Ok(None) => Ok(()),
        Err(fault) => Err(Trouble::Fault(fault)),
    }
}

/// The names of the symbols in the table of the section header at the offset.
fn names_in(
    alloc: Global,
    file: &[u8],
    header: usize,
    table: &SymbolTable,
    ends: &[usize],
) -> Result<Vec<Name>, Trouble>
    requires table { IsSymbolTable file.now header table.now }
    requires ends { AreEnds (contents file.now (linked file.now header)) ends.now }
    ensures reads { Reads (flat_map (label_checks file.now header) (symbols file.now header)) (λ names. names.items ≡ flat_map (label_name file.now header) (symbols file.now header)) result }
    ensures inside { IfOk result (λ names. All (λ n. n.offset + n.length ≤ length file.now) names.items) }
{
    let mut names = Vec::new(alloc);
    for index in 0..table.count {
        if let Err(trouble) = add_name(
            &mut names,
            file,
            header,
            table,
            ends,
            table.symbols + 16 * index,
        ) {
            return Err(trouble);
        }
    }
    Ok(names)
}

/// The names of the section header at the offset, a symbol table's.
fn section_names(alloc: Global, file: &[u8], header: usize) -> Result<Vec<Name>, Trouble>
    requires header { 52 ≤ length file.now }
    requires section { header + 40 ≤ length file.now }
    requires sections { e_shoff file.now + 40 * e_shnum file.now ≤ length file.now }
    ensures reads { Reads (symbol_checks file.now (Some header)) (λ names. names.items ≡ section_names_of file.now (Some header)) result }
    ensures inside { IfOk result (λ names. All (λ n. n.offset + n.length ≤ length file.now) names.items) }
{
    let table = match symbol_table(file, header) {
        Ok(table) => table,
        Err(fault) => return Err(Trouble::Fault(fault)),
    };
    match block_ends(alloc, &file[table.strings..table.strings + table.size]) {
        Ok(ends) => names_in(alloc, file, header, &table, ends.as_slice()),
        Err(error) => Err(Trouble::Memory(error)),
    }
}

/// The names of the file, in the order of the symbols.
pub fn read_names(alloc: Global, file: &[u8]) -> Result<Vec<Name>, Trouble>
    requires { 52 ≤ length file.now }
    ensures reads { Reads (name_checks file.now) (λ names. names.items ≡ names_of file.now) result }
    ensures inside { IfOk result (λ names. All (λ n. n.offset + n.length ≤ length file.now) names.items) }
{
    let count = half(file, 48) as usize;
    if count == 0 {
        return Ok(Vec::new(alloc));
    }
    if half(file, 46) != 40 {
        return Err(Trouble::Fault(Fault::BadTable(46)));
    }
    let table = word(file, 32) as usize;
    if table + 40 * count > file.len() {
        return Err(Trouble::Fault(Fault::Truncated(table as u64)));
    }
    match symbol_section(file, table, count) {
        Some(header) => section_names(alloc, file, header),
        None => Ok(Vec::new(alloc)),
    }
}
