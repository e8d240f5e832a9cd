ghost use Rattle.std.specs.Prelude.{◌≡◌, ◌++◌, ◌<◌, ◌-◌, ◌^◌, All, IfOk, IsTrue, OnOk, replicate};
ghost use Rattle.byteorder.specs.Endian.{little_bytes};
ghost use Rattle.wc_asm.specs.Files.{file_header, file_of, halves, is_writable_of, names_size, program_header, section_headers, string_table, symbol, symbol_table, words};
ghost use Rattle.wc_asm.specs.Images.{IsReadBack};

use crate::layout::layout_of;
use crate::program::Program;
use std::alloc::{AllocError, Global};
use wc_base::Addr;
use wc_model::Text;

const FLAGS_EABI5: u32 = 0x0500_0000;

const SHN_ABS: u16 = 0xFFF1;

const GLOBAL_FUNCTION: u8 = 0x12;

fn put_words(file: &mut Vec<u8>, values: &[u32]) -> Result<(), AllocError>
    ensures words { OnOk result (file.new.items ≡ file.old.items ++ words values.now) }
    ensures numbers { All (λ value. value < 2 ^ 32) values.now }
{
    for value in values {
        file.extend_from_slice(&value.to_le_bytes())?;
    }
    Ok(())
}

fn put_halves(file: &mut Vec<u8>, values: &[u16]) -> Result<(), AllocError>
    ensures { OnOk result (file.new.items ≡ file.old.items ++ halves values.now) }
{
    for value in values {
        file.extend_from_slice(&value.to_le_bytes())?;
    }
    Ok(())
}

fn put_headers(file: &mut Vec<u8>, start: Addr, sections: u32, size: u32) -> Result<(), AllocError>
    ensures { OnOk result (file.new.items ≡ file.old.items ++ (file_header start sections ++ program_header start size)) }
{
    file.extend_from_slice(&[0x7F, 0x45, 0x4C, 0x46, 1, 1, 1, 0, 0, 0, 0, 0, 0, 0, 0, 0])?;
    put_halves(file, &[2, 40])?;
    put_words(file, &[1, start, 52, sections, FLAGS_EABI5])?;
    put_halves(file, &[52, 32, 1, 40, 3, 2])?;
    put_words(file, &[1, 84, start, start, size, size, 5, 4])?;
    Ok(())
}

fn put_symbol(file: &mut Vec<u8>, name: u32, value: Addr) -> Result<(), AllocError>
    ensures symbol { OnOk result (file.new.items ≡ file.old.items ++ symbol name value) }
    ensures address { value < 2 ^ 32 }
{
    put_words(file, &[name, value, 0])?;
    file.extend_from_slice(&[GLOBAL_FUNCTION, 0])?;
    put_halves(file, &[SHN_ABS])?;
    Ok(())
}

fn put_symbols(file: &mut Vec<u8>, names: &[(Text, Addr)]) -> Result<(), AllocError>
    requires { names_size names.now < 2 ^ 32 - 1 }
    ensures table { OnOk result (file.new.items ≡ file.old.items ++ symbol_table names.now) }
    ensures addresses { OnOk result (All (λ name. name.1 < 2 ^ 32) names.now) }
{
    put_words(file, &[0, 0, 0, 0])?;
    let mut place = 1u32;
    for name in names {
        put_symbol(file, place, name.1)?;
        place += name.0.items().len() as u32 + 1;
    }
    Ok(())
}

fn put_strings(file: &mut Vec<u8>, names: &[(Text, Addr)]) -> Result<(), AllocError>
    ensures { OnOk result (file.new.items ≡ file.old.items ++ string_table names.now) }
{
    file.push(0)?;
    let mut rest = names;
    while let Some((name, others)) = rest.split_first() {
        file.extend_from_slice(name.0.items())?;
        file.push(0)?;
        rest = others;
    }
    Ok(())
}

fn put_sections(
    file: &mut Vec<u8>,
    symbols: u32,
    symbols_size: u32,
    strings: u32,
    size: u32,
) -> Result<(), AllocError>
    ensures { OnOk result (file.new.items ≡ file.old.items ++ section_headers symbols symbols_size strings size) }
{
    put_words(file, &[0, 0, 0, 0, 0, 0, 0, 0, 0, 0])?;
    put_words(file, &[0, 2, 0, 0, symbols, symbols_size, 2, 1, 4, 16])?;
    put_words(file, &[0, 3, 0, 0, strings, size, 0, 0, 1, 0])?;
    Ok(())
}

fn put_padding(file: &mut Vec<u8>, count: u32) -> Result<(), AllocError>
    ensures { OnOk result (file.new.items ≡ file.old.items ++ replicate count 0) }
{
    for _place in 0..count {
        file.push(0)?;
    }
    Ok(())
}

/// The program as an ELF file. A reader of ELF files refuses nothing of it, and finds the program's words in
/// one range and its names in their order, each a function at the program's address.
pub fn write_elf(alloc: Global, program: &Program) -> Result<Vec<u8>, AllocError>
    requires { IsTrue (is_writable_of program.now) }
    ensures bytes { IfOk result (λ file. file.items ≡ file_of program.now) }
    ensures read_back { IfOk result (λ file. IsReadBack program.now file.items) }
{
    let mut file = Vec::new(alloc);
    let Some(layout) = layout_of(program) else {
        unreachable!();
    };
    let words = program.words.items();
    let names = program.names.items();
    put_headers(
        &mut file,
        program.start,
        layout.sections,
        4 * words.len() as u32,
    )?;
    put_words(&mut file, words)?;
    put_symbols(&mut file, names)?;
    put_strings(&mut file, names)?;
    put_padding(&mut file, layout.padding)?;
    put_sections(
        &mut file,
        layout.symbols,
        layout.strings - layout.symbols,
        layout.strings,
        layout.size,
    )?;
    Ok(file)
}
