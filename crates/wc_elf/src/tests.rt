use crate::{find, read_image};
use std::alloc::Global;
use std::test::Fail;
use wc_base::{Fault, Trouble};
use wc_model::Image;

/// The words E3A00001 E12FFF1E at 0x8000, with the name `f` there.
const FILE: [u8; 248] = [
    // ELF header
    0x7F, 0x45, 0x4C, 0x46, 1, 1, 1, 0, 0, 0, 0, 0, 0, 0, 0, 0, 2, 0, 40, 0, 1, 0, 0, 0, 0, 0x80,
    0, 0, 52, 0, 0, 0, 128, 0, 0, 0, 0, 0, 0, 5, 52, 0, 32, 0, 1, 0, 40, 0, 3, 0, 2, 0,
    // program header, at 52
    1, 0, 0, 0, 84, 0, 0, 0, 0, 0x80, 0, 0, 0, 0x80, 0, 0, 8, 0, 0, 0, 8, 0, 0, 0, 5, 0, 0, 0, 4,
    0, 0, 0,
    // words, at 84
    0x01, 0x00, 0xA0, 0xE3, 0x1E, 0xFF, 0x2F, 0xE1,
    // symbols, at 92
    0, 0, 0, 0, 0, 0, 0, 0, 0, 0, 0, 0, 0, 0, 0, 0, 1, 0, 0, 0, 0, 0x80, 0, 0, 0, 0, 0, 0, 0x12, 0,
    0xF1, 0xFF,
    // strings, at 124
    0, 0x66, 0, 0,
    // section headers, at 128
    0, 0, 0, 0, 0, 0, 0, 0, 0, 0, 0, 0, 0, 0, 0, 0, 0, 0, 0, 0, 0, 0, 0, 0, 0, 0, 0, 0, 0, 0, 0, 0,
    0, 0, 0, 0, 0, 0, 0, 0, 0, 0, 0, 0, 2, 0, 0, 0, 0, 0, 0, 0, 0, 0, 0, 0, 92, 0, 0, 0, 32, 0, 0,
    0, 2, 0, 0, 0, 1, 0, 0, 0, 4, 0, 0, 0, 16, 0, 0, 0, 0, 0, 0, 0, 3, 0, 0, 0, 0, 0, 0, 0, 0, 0,
    0, 0, 124, 0, 0, 0, 3, 0, 0, 0, 0, 0, 0, 0, 0, 0, 0, 0, 1, 0, 0, 0, 0, 0, 0, 0,
];

/// A program header for the file offset, the size and the address, with the flags.
fn segment(alloc: Global, offset: u8, address: u8, size: u8, flags: u8) -> Result<Vec<u8>, Fail> {
    Ok(vec![in alloc;
        1, 0, 0, 0, offset, 0, 0, 0, 0, address, 0, 0, 0, 0, 0, 0, size, 0, 0, 0, size, 0, 0, 0,
        flags, 0, 0, 0, 4, 0, 0, 0,
    ]?)
}

/// The first `length` bytes of the file with 64 zeros after it, each of the pieces written over its place.
fn edited(alloc: Global, length: usize, pieces: &[(usize, &[u8])]) -> Result<Vec<u8>, Fail> {
    let mut bytes = Vec::new(alloc);
    bytes.extend_from_slice(&FILE)?;
    bytes.extend_from_slice(&[0; 64])?;
    for (place, piece) in pieces {
        for (index, byte) in piece.iter().enumerate() {
            if let Some(old) = bytes.get_mut(place.saturating_add(index)) {
                *old = *byte;
            }
        }
    }
    bytes.truncate(length);
    Ok(bytes)
}

fn fault_of(image: Result<Image, Trouble>) -> Option<Fault> {
    match image {
        Err(Trouble::Fault(fault)) => Some(fault),
        _ => None,
    }
}

#[test]
fn refuses_every_beginning_of_the_file(rt: HostRuntime) -> Result<(), Fail> {
    for length in 0..248 {
        let offset = match length {
            0..52 => 0,
            52..84 => 52,
            84..92 => 84,
            _ => 128,
        };
        let bytes = edited(rt.alloc(), length, &[])?;
        assert_eq!(rt;
            fault_of(read_image(rt.alloc(), bytes)),
            Some(Fault::Truncated(offset)),
            "{length}"
        );
    }
    Ok(())
}

#[test]
fn refuses_by_the_first_check_that_fails(rt: HostRuntime) -> Result<(), Fail> {
    let rows: [(&str, usize, &[(usize, &[u8])], Fault); 24] = [
        ("magic", 248, &[(3, &[0x47])], Fault::NotArm(0)),
        ("64 bits", 248, &[(4, &[2])], Fault::NotArm(4)),
        ("big-endian", 248, &[(5, &[2])], Fault::NotArm(5)),
        ("version", 248, &[(6, &[0])], Fault::NotArm(6)),
        ("shared object", 248, &[(16, &[3])], Fault::NotArm(16)),
        ("x86-64", 248, &[(18, &[62])], Fault::NotArm(18)),
        (
            "class before machine",
            248,
            &[(4, &[2]), (18, &[62])],
            Fault::NotArm(4),
        ),
        ("e_phentsize", 248, &[(42, &[56])], Fault::BadTable(42)),
        (
            "e_phentsize before e_phoff",
            248,
            &[(42, &[56]), (28, &[0, 1])],
            Fault::BadTable(42),
        ),
        ("e_phoff", 248, &[(28, &[217])], Fault::Truncated(217)),
        (
            "p_filesz past the file",
            248,
            &[(68, &[165])],
            Fault::Truncated(84),
        ),
        (
            "p_vaddr + p_filesz past 2^32",
            248,
            &[(60, &[0xFC, 0xFF, 0xFF, 0xFF])],
            Fault::BadTable(52),
        ),
        (
            "segment before sections",
            248,
            &[(68, &[165]), (46, &[56])],
            Fault::Truncated(84),
        ),
        ("e_shentsize", 248, &[(46, &[56])], Fault::BadTable(46)),
        (
            "e_shnum 65535",
            248,
            &[(48, &[0xFF, 0xFF])],
            Fault::Truncated(128),
        ),
        (
            "section table at 200 of 210 bytes",
            210,
            &[(32, &[200])],
            Fault::Truncated(200),
        ),
        (
            "sh_size of the symbols no multiple of 16",
            248,
            &[(188, &[31])],
            Fault::BadTable(168),
        ),
        (
            "symbols past the file",
            248,
            &[(188, &[160])],
            Fault::Truncated(92),
        ),
        (
            "sh_link is e_shnum",
            248,
            &[(192, &[3])],
            Fault::BadTable(168),
        ),
        (
            "sh_link names no string table",
            248,
            &[(192, &[1])],
            Fault::BadTable(168),
        ),
        (
            "strings past the file",
            248,
            &[(228, &[125])],
            Fault::Truncated(124),
        ),
        (
            "st_name is the table's size",
            248,
            &[(108, &[3])],
            Fault::BadTable(108),
        ),
        (
            "no NUL after the name",
            248,
            &[(126, &[0x67])],
            Fault::BadTable(108),
        ),
        (
            "an undefined symbol is passed over",
            248,
            &[(92, &[9]), (104, &[2]), (108, &[9])],
            Fault::BadTable(108),
        ),
    ];
    for (name, length, pieces, fault) in rows {
        let bytes = edited(rt.alloc(), length, pieces)?;
        assert_eq!(rt;
            fault_of(read_image(rt.alloc(), bytes)),
            Some(fault),
            "{name}"
        );
    }
    Ok(())
}

#[test]
fn reads_words_and_names(rt: HostRuntime) -> Result<(), Fail> {
    let alloc = rt.alloc();
    let plain = read_image(alloc, edited(alloc, 248, &[])?)?;
    assert_eq!(rt; plain.bytes.items(), FILE.as_slice());
    let words = [
        (0x7FFC, None),
        (0x8000, Some(0xE3A00001)),
        (0x8002, None),
        (0x8004, Some(0xE12FFF1E)),
        (0x8008, None),
        (0xFFFF_FFFC, None),
    ];
    for (at, word) in words {
        assert_eq!(rt; plain.word(at), word, "{at}");
    }
    assert_eq!(rt; find(&plain, b"f"), Ok(0x8000));
    assert_eq!(rt; find(&plain, b"g"), Err(Fault::NoSymbol));
    assert_eq!(rt; find(&plain, b""), Err(Fault::NoSymbol));
    let data = read_image(alloc, edited(alloc, 248, &[(76, &[6])])?)?;
    assert_eq!(rt; data.word(0x8000), None);
    let bare = read_image(alloc, edited(alloc, 128, &[(48, &[0])])?)?;
    assert_eq!(rt; bare.word(0x8000), Some(0xE3A00001));
    assert_eq!(rt; find(&bare, b"f"), Err(Fault::NoSymbol));
    Ok(())
}

#[test]
fn the_first_range_that_holds_a_word_decides(rt: HostRuntime) -> Result<(), Fail> {
    let alloc = rt.alloc();
    let whole = segment(alloc, 84, 0x80, 8, 5)?;
    let second = segment(alloc, 88, 0x80, 4, 5)?;
    let rows = [(&whole, &second, 0xE3A00001), (&second, &whole, 0xE12FFF1E)];
    for (one, other, word) in rows {
        let bytes = edited(
            alloc,
            312,
            &[
                (28, &[248]),
                (44, &[2]),
                (248, one.as_slice()),
                (280, other.as_slice()),
            ],
        )?;
        let image = read_image(alloc, bytes)?;
        assert_eq!(rt; image.word(0x8000), Some(word));
        assert_eq!(rt; image.word(0x8004), Some(0xE12FFF1E));
    }
    Ok(())
}

#[test]
fn the_first_symbol_of_a_name_decides(rt: HostRuntime) -> Result<(), Fail> {
    let alloc = rt.alloc();
    let rows: [(&str, &[(usize, &[u8])], Result<u32, Fault>); 7] = [
        (
            "a function with bit 0 set",
            &[(112, &[1])],
            Err(Fault::Thumb(0x8001)),
        ),
        (
            "bit 0 of another symbol",
            &[(112, &[1]), (120, &[0x10])],
            Ok(0x8001),
        ),
        (
            "an object is no label",
            &[(120, &[0x11])],
            Err(Fault::NoSymbol),
        ),
        (
            "an undefined symbol is no label",
            &[(122, &[0, 0])],
            Err(Fault::NoSymbol),
        ),
        (
            "a second symbol of the name",
            &[(92, &[1, 0, 0, 0, 8, 0x80, 0, 0, 0, 0, 0, 0, 0x12, 0, 1])],
            Ok(0x8008),
        ),
        (
            "a second one with bit 0 set",
            &[
                (92, &[1, 0, 0, 0, 8, 0x80, 0, 0, 0, 0, 0, 0, 0x12, 0, 1]),
                (112, &[1]),
            ],
            Ok(0x8008),
        ),
        (
            "a symbol without bytes in its name",
            &[(92, &[2, 0, 0, 0, 8, 0x80, 0, 0, 0, 0, 0, 0, 0x12, 0, 1])],
            Ok(0x8000),
        ),
    ];
    for (name, pieces, value) in rows {
        let image = read_image(alloc, edited(alloc, 248, pieces)?)?;
        assert_eq!(rt; find(&image, b"f"), value, "{name}");
    }
    Ok(())
}
