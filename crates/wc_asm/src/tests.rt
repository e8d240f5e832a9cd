ghost use Rattle.std.specs.Prelude.{IfOk, IsTrue};
ghost use Rattle.wc_base.specs.Troubles.{IfFault};
ghost use Rattle.wc_asm.specs.Files.{is_writable_of};
ghost use Rattle.wc_asm.specs.Images.{IsProgramImage};

use crate::{Program, is_writable, word_of, write_elf};
use std::alloc::Global;
use std::test::Fail;
use wc_a32::insn;
use wc_base::Trouble;
use wc_elf::{find, read_image};
use wc_model::{Class, Control, Image, Insn, Table, Text};

/// The words E3A00001 E12FFF1E at 0x8000, with the name `f` there.
const FILE: [u8; 248] = [
    // ELF header
    0x7F, 0x45, 0x4C, 0x46, 1, 1, 1, 0, 0, 0, 0, 0, 0, 0, 0, 0, 2, 0, 40, 0, 1, 0, 0, 0, 0, 0x80,
    0, 0, 52, 0, 0, 0, 128, 0, 0, 0, 0, 0, 0, 5, 52, 0, 32, 0, 1, 0, 40, 0, 3, 0, 2, 0,
    // program header, at 52
    1, 0, 0, 0, 84, 0, 0, 0, 0, 0x80, 0, 0, 0, 0x80, 0, 0, 8, 0, 0, 0, 8, 0, 0, 0, 5, 0, 0, 0, 4,
    0, 0, 0,
    // words, at 84
    0x01, 0x00, 0xA0, 0xE3, 0x1E, 0xFF, 0x2F, 0xE1,
    // symbols, at 92
    0, 0, 0, 0, 0, 0, 0, 0, 0, 0, 0, 0, 0, 0, 0, 0, 1, 0, 0, 0, 0, 0x80, 0, 0, 0, 0, 0, 0, 0x12, 0,
    0xF1, 0xFF,
    // strings, at 124
    0, 0x66, 0, 0,
    // section headers, at 128
    0, 0, 0, 0, 0, 0, 0, 0, 0, 0, 0, 0, 0, 0, 0, 0, 0, 0, 0, 0, 0, 0, 0, 0, 0, 0, 0, 0, 0, 0, 0, 0,
    0, 0, 0, 0, 0, 0, 0, 0, 0, 0, 0, 0, 2, 0, 0, 0, 0, 0, 0, 0, 0, 0, 0, 0, 92, 0, 0, 0, 32, 0, 0,
    0, 2, 0, 0, 0, 1, 0, 0, 0, 4, 0, 0, 0, 16, 0, 0, 0, 0, 0, 0, 0, 3, 0, 0, 0, 0, 0, 0, 0, 0, 0,
    0, 0, 124, 0, 0, 0, 3, 0, 0, 0, 0, 0, 0, 0, 0, 0, 0, 0, 1, 0, 0, 0, 0, 0, 0, 0,
];

fn program(
    alloc: Global,
    start: u32,
    words: &[u32],
    names: &[(&[u8], u32)],
) -> Result<Program, Fail> {
    let mut list = Vec::new(alloc);
    for (name, value) in names {
        list.push((Text::new(bytes(alloc, name)?), *value))?;
    }
    let mut code = Vec::new(alloc);
    code.extend_from_slice(words)?;
    Ok(Program {
        start,
        words: Table::new(code),
        names: Table::new(list),
    })
}

fn bytes(alloc: Global, text: &[u8]) -> Result<Vec<u8>, Fail> {
    let mut copy = Vec::new(alloc);
    copy.extend_from_slice(text)?;
    Ok(copy)
}

#[test]
fn writes_the_example_byte_for_byte(rt: HostRuntime) -> Result<(), Fail> {
    let example = program(
        rt.alloc(),
        0x8000,
        &[0xE3A00001, 0xE12FFF1E],
        &[(b"f", 0x8000)],
    )?;
    let writable = is_writable(&example);
    assert!(rt; writable);
    assert_eq!(rt;
        write_elf(rt.alloc(), &example)?.as_slice(),
        FILE.as_slice()
    );
    Ok(())
}

/// What is read of the program's file. Both contracts together say that it is the program.
fn written_and_read(alloc: Global, program: &Program) -> Result<Image, Trouble>
    requires { IsTrue (is_writable_of program.now) }
    ensures image { IfOk result (IsProgramImage program.now) }
    ensures sound { IfFault result (λ fault. ⊥) }
{
    let file = match write_elf(alloc, program) {
        Ok(file) => file,
        Err(error) => return Err(Trouble::Memory(error)),
    };
    read_image(alloc, file)
}

#[test]
fn reads_what_it_wrote(rt: HostRuntime) -> Result<(), Fail> {
    let alloc = rt.alloc();
    let rows: [(u32, &[u32], &[(&[u8], u32)]); 4] = [
        (0x8000, &[0xE12FFF1E], &[]),
        (
            0xFFFF_FFF8,
            &[0xE3A00001, 0xE12FFF1E],
            &[(b"last", 0xFFFF_FFFC), (b"f", 0xFFFF_FFF8)],
        ),
        (
            0,
            &[0xE12FFF1E],
            &[
                (&[0xC3, 0xA9, 0xFF], 0),
                (
                    b"a longer name, so that the strings need no zeros after it",
                    4,
                ),
            ],
        ),
        (0x8000, &[], &[(b"none", 0x8000)]),
    ];
    for (start, words, names) in rows {
        let written = program(alloc, start, words, names)?;
        let writable = is_writable(&written);
        assert!(rt; writable);
        let image = written_and_read(alloc, &written)?;
        let mut at = start;
        for word in words {
            assert_eq!(rt; image.word(at), Some(*word));
            at = at.wrapping_add(4);
        }
        assert_eq!(rt; image.word(at), None);
        assert_eq!(rt; image.names.items().len(), names.len());
        for (name, value) in names {
            assert_eq!(rt; find(&image, name), Ok(*value));
        }
    }
    Ok(())
}

#[test]
fn tells_which_programs_a_file_holds(rt: HostRuntime) -> Result<(), Fail> {
    let alloc = rt.alloc();
    let rows: [(u32, &[u32], &[u8], bool); 6] = [
        (0x8000, &[0], b"f", true),
        (0x8002, &[0], b"f", false),
        (0xFFFF_FFFC, &[0], b"f", true),
        (0xFFFF_FFFC, &[0, 0], b"f", false),
        (0x8000, &[0], b"", false),
        (0x8000, &[0], b"f\0", false),
    ];
    for (start, words, name, writable) in rows {
        let written = program(alloc, start, words, &[(name, 0)])?;
        assert_eq!(rt; is_writable(&written), writable, "{start}");
    }
    // 2^24 bytes but for the headers, a first symbol, the name's symbol, two NULs and its first byte
    let most = (1 << 24) - 84 - 120 - 32 - 2;
    for (length, writable) in [(most, true), (most + 1, false)] {
        let mut name = Vec::new(alloc);
        name.resize(length, 1)?;
        let mut names = Vec::new(alloc);
        names.push((Text::new(name), 0))?;
        let long = Program {
            start: 0,
            words: Table::new(Vec::new(alloc)),
            names: Table::new(names),
        };
        assert_eq!(rt; is_writable(&long), writable, "{length}");
    }
    Ok(())
}

#[test]
fn reads_each_canonical_word_back(rt: HostRuntime) {
    let rows = [
        (Class::Alu, 0, Control::Next, true, Some(0xE1A00000)),
        (Class::Mul, 0, Control::Next, true, Some(0xE0000190)),
        (Class::Div, 0, Control::Next, true, Some(0xE710F110)),
        (Class::Load, 0, Control::Next, true, Some(0xE5900000)),
        (Class::Store, 0, Control::Next, true, Some(0xE5800000)),
        (Class::System, 0, Control::Next, true, Some(0xEF000000)),
        (Class::Multi, 1, Control::Next, true, Some(0xE8900001)),
        (Class::Multi, 15, Control::Next, true, Some(0xE8907FFF)),
        (Class::Multi, 16, Control::Next, true, None),
        (Class::Multi, 0, Control::Next, true, None),
        (Class::Branch, 0, Control::Next, true, None),
        (Class::Alu, 1, Control::Next, true, None),
        (Class::Alu, 0, Control::Next, false, None),
        (
            Class::Branch,
            0,
            Control::Jump(0x8008),
            true,
            Some(0xEA000000),
        ),
        (
            Class::Branch,
            0,
            Control::Jump(0x8000),
            false,
            Some(0x1AFFFFFE),
        ),
        (
            Class::Branch,
            0,
            Control::Call(0x8000),
            true,
            Some(0xEBFFFFFE),
        ),
        (
            Class::Branch,
            0,
            Control::Call(0x800C),
            false,
            Some(0x1B000001),
        ),
        (
            Class::Branch,
            0,
            Control::Jump(0x02008004),
            true,
            Some(0xEA7FFFFF),
        ),
        (Class::Branch, 0, Control::Jump(0x02008008), true, None),
        (
            Class::Branch,
            0,
            Control::Jump(0xFE008008),
            true,
            Some(0xEA800000),
        ),
        (Class::Branch, 0, Control::Jump(0xFE008004), true, None),
        (Class::Branch, 0, Control::Jump(0x800A), true, None),
        (Class::Alu, 0, Control::Jump(0x8008), true, None),
        (Class::Branch, 0, Control::Return, true, Some(0xE12FFF1E)),
        (Class::Branch, 0, Control::Return, false, Some(0x112FFF1E)),
        (
            Class::Branch,
            0,
            Control::IndirectJump,
            true,
            Some(0xE12FFF10),
        ),
        (
            Class::Branch,
            0,
            Control::IndirectCall,
            false,
            Some(0x112FFF30),
        ),
        (Class::Alu, 0, Control::Return, true, Some(0xE1A0F00E)),
        (Class::Load, 0, Control::Return, false, Some(0x149DF004)),
        (Class::Multi, 1, Control::Return, true, Some(0xE8BD8000)),
        (Class::Multi, 13, Control::Return, false, Some(0x18BD8FFF)),
        (Class::Multi, 14, Control::Return, true, None),
        (Class::Store, 0, Control::Return, true, None),
        (Class::Alu, 0, Control::IndirectJump, true, Some(0xE1A0F000)),
        (
            Class::Load,
            0,
            Control::IndirectJump,
            false,
            Some(0x1590F000),
        ),
        (Class::Multi, 1, Control::IndirectJump, true, None),
        (Class::System, 0, Control::IndirectCall, true, None),
    ];
    for (class, moved, control, always, word) in rows {
        let instruction = Insn {
            class,
            moved,
            control,
            always,
        };
        assert_eq!(rt; word_of(0x8000, &instruction), word);
        if let Some(word) = word {
            assert_eq!(rt; insn(0x8000, word), Some(instruction), "{word}");
        }
    }
}
