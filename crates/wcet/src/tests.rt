use crate::Status;
use crate::bound::bound_once;
use std::alloc::{AllocError, Global};
use std::test::Fail;
use std::thread::Threads;
use wc_asm::{Program, is_writable, write_elf};
use wc_io::{MemoryFile, MemoryHouse, MemorySink};
use wc_model::Table;

// An executable with the code at 0x8000, the function `f` there and `t` one byte later; nothing where it is too
// long.
pub fn program(alloc: Global, words: &[u32]) -> Result<Vec<u8>, AllocError> {
    let mut names = Vec::new(alloc);
    names.push((Table::new(Vec::from_slice(alloc, b"f")?), 0x8000))?;
    names.push((Table::new(Vec::from_slice(alloc, b"t")?), 0x8001))?;
    let program = Program {
        start: 0x8000,
        words: Table::new(Vec::from_slice(alloc, words)?),
        names: Table::new(names),
    };
    if is_writable(&program) {
        write_elf(alloc, &program)
    } else {
        Ok(Vec::new(alloc))
    }
}

pub fn house_of(
    alloc: Global,
    bytes: Vec<u8>,
    most: usize,
    failing: &[u64],
) -> Result<MemoryHouse, AllocError> {
    let mut files = Vec::new(alloc);
    files.push(MemoryFile {
        path: String::from_str(alloc, "a.elf")?,
        bytes,
        most,
        failing: Vec::from_slice(alloc, failing)?,
    })?;
    Ok(MemoryHouse {
        files,
        calls: 0,
        failing: Vec::new(alloc),
        opened: Vec::new(alloc),
    })
}

pub fn words_of(alloc: Global, line: &str) -> Result<Vec<String>, AllocError> {
    let mut words = Vec::new(alloc);
    for word in line.split(' ') {
        words.push(String::from_str(alloc, word)?)?;
    }
    Ok(words)
}

// The status of a call, and what it wrote; some writes of the output fail, by their numbers. Where memory was short there
// is nothing to compare.
pub fn call<R: Threads + Sync>(
    rt: &R,
    alloc: Global,
    line: &str,
    house: &mut MemoryHouse,
    failing: &[u64],
) -> Result<(Status, Vec<u8>), AllocError> {
    let mut out = MemorySink {
        place: 0,
        path: String::new(alloc),
        held: Vec::new(alloc),
        calls: 0,
        failing: Vec::from_slice(alloc, failing)?,
        faults: 0,
    };
    let words = words_of(alloc, line)?;
    let status = bound_once(rt, alloc, &words, house, &mut out);
    if status == 5 || (failing.is_empty() && out.faults > 0) {
        return Err(AllocError);
    }
    Ok((status, out.held))
}

pub const STRAIGHT: [u32; 2] = [0xE3A0_0001, 0xE12F_FF1E];

#[test]
fn each_way_to_end_has_its_line_and_status(rt: HostRuntime) -> Result<(), Fail> {
    let alloc = rt.alloc();
    for most in [0, 1] {
        let mut house = house_of(alloc, program(alloc, &STRAIGHT)?, most, &[])?;
        for (line, status, text) in [
            ("bound a.elf - - f", 0, "bound f 2\n"),
            ("bound a.elf - - zz", 1, "refused 4 NoSymbol\n"),
            ("bound a.elf - - t", 1, "refused 5 Thumb 0x00008001\n"),
            ("bound b.elf - - f", 3, "read fault\n"),
            ("bound a.elf - - ", 2, "usage\n"),
            ("bound a.elf - -", 2, "usage\n"),
            ("bound a.elf - - f f", 2, "usage\n"),
            ("bounds a.elf - - f", 2, "usage\n"),
            ("--help", 2, "usage\n"),
            ("", 2, "usage\n"),
        ] {
            let (was, wrote) = call(&rt, alloc, line, &mut house, &[])?;
            assert_eq!(rt; was, status, "{line}");
            assert!(rt; wrote.as_slice() == text.as_bytes(), "{line}");
        }
    }
    Ok(())
}

#[test]
fn a_binary_without_a_header_or_of_too_many_bytes_is_refused(rt: HostRuntime) -> Result<(), Fail> {
    let alloc = rt.alloc();
    for (size, text) in [
        (0, "refused 1 Truncated offset 0\n"),
        (16_777_216, "refused 2 NotArm offset 0\n"),
        (16_777_217, "refused 6 LongFile binary\n"),
    ] {
        let mut house = house_of(alloc, vec![in alloc; 0u8; size]?, 0, &[])?;
        let (status, wrote) = call(&rt, alloc, "bound a.elf - - f", &mut house, &[])?;
        assert_eq!(rt; status, 6, "{text}");
        assert!(rt; wrote.as_slice() == text.as_bytes(), "{text}");
    }
    Ok(())
}

#[test]
fn a_fault_of_the_outside_has_its_status(rt: HostRuntime) -> Result<(), Fail> {
    let alloc = rt.alloc();
    let line = "bound a.elf - - f";
    let mut late = house_of(alloc, program(alloc, &STRAIGHT)?, 7, &[2])?;
    let (status, wrote) = call(&rt, alloc, line, &mut late, &[])?;
    assert_eq!(rt; status, 3);
    assert!(rt; wrote.as_slice() == b"read fault\n".as_slice());
    assert_eq!(rt; late.opened.len(), 1);
    let mut house = house_of(alloc, program(alloc, &STRAIGHT)?, 0, &[])?;
    for (write, text) in [(1, ""), (2, "bound ")] {
        let (status, wrote) = call(&rt, alloc, line, &mut house, &[write])?;
        assert_eq!(rt; status, 4);
        assert!(rt; wrote.as_slice() == text.as_bytes());
    }
    Ok(())
}

// The line of `bound` for code at 0x8000, and its status.
fn outcome_of<R: Threads + Sync>(
    rt: &R,
    alloc: Global,
    words: &[u32],
) -> Result<(Status, Vec<u8>), AllocError> {
    let mut house = house_of(alloc, program(alloc, words)?, 0, &[])?;
    call(rt, alloc, "bound a.elf - - f", &mut house, &[])
}

#[test]
fn a_bound_is_the_greatest_cost_over_all_paths(rt: HostRuntime) -> Result<(), Fail> {
    let alloc = rt.alloc();
    for (code, text) in [
        // cmp; beq over two words; the fall-through is longer than the jump
        (
            [
                0xE350_0000,
                0x0A00_0001,
                0xE3A0_0001,
                0xE3A0_0001,
                0xE12F_FF1E,
            ],
            "bound f 5\n",
        ),
        // a return in the middle that is taken or not
        (
            [
                0xE3A0_0001,
                0x012F_FF1E,
                0xE3A0_0001,
                0xE3A0_0001,
                0xE12F_FF1E,
            ],
            "bound f 5\n",
        ),
        // a jump over words that are no instructions
        (
            [
                0xEA00_0002,
                0xFFFF_FFFF,
                0xFFFF_FFFF,
                0xFFFF_FFFF,
                0xE12F_FF1E,
            ],
            "bound f 2\n",
        ),
        // a jump out of the code
        (
            [
                0xE350_0000,
                0x0A00_0010,
                0xE3A0_0001,
                0xE3A0_0001,
                0xE12F_FF1E,
            ],
            "refused 21 OutOfText 0x0000804c\n",
        ),
        // a jump to itself
        (
            [
                0xEAFF_FFFE,
                0xE3A0_0001,
                0xE3A0_0001,
                0xE3A0_0001,
                0xE12F_FF1E,
            ],
            "refused 25 NoExit\n",
        ),
        // a way that doesn't come to the exit
        (
            [
                0xE350_0000,
                0x0A00_0001,
                0xE3A0_0001,
                0xE12F_FF1E,
                0xEAFF_FFFE,
            ],
            "bound f 4\n",
        ),
        // a loop of two words
        (
            [
                0xE3A0_0001,
                0xE250_0001,
                0x1AFF_FFFD,
                0xE3A0_0001,
                0xE12F_FF1E,
            ],
            "refused 31 Unbounded 0x00008004\n",
        ),
        // the code ends without a return
        (
            [
                0xE3A0_0001,
                0xE3A0_0001,
                0xE3A0_0001,
                0xE3A0_0001,
                0xE3A0_0001,
            ],
            "refused 21 OutOfText 0x00008014\n",
        ),
        // a word that is no instruction, and a jump to what a register says
        (
            [
                0xE3A0_0001,
                0xE7F0_00F0,
                0xE3A0_0001,
                0xE3A0_0001,
                0xE12F_FF1E,
            ],
            "refused 22 UnknownInstruction 0x00008004\n",
        ),
        (
            [
                0xE3A0_0001,
                0xE12F_FF13,
                0xE3A0_0001,
                0xE3A0_0001,
                0xE12F_FF1E,
            ],
            "refused 23 Unresolved 0x00008004\n",
        ),
    ] {
        let (_, wrote) = outcome_of(&rt, alloc, &code)?;
        assert!(rt; wrote.as_slice() == text.as_bytes(), "{text}");
    }
    Ok(())
}

#[test]
fn forty_branches_in_a_row_are_answered_at_once(rt: HostRuntime) -> Result<(), Fail> {
    let alloc = rt.alloc();
    let mut code = Vec::new(alloc);
    for _ in 0..40 {
        // beq over the next word
        code.push(0x0A00_0000)?;
        code.push(0xE1A0_0000)?;
    }
    code.push(0xE12F_FF1E)?;
    let (status, wrote) = outcome_of(&rt, alloc, &code)?;
    assert_eq!(rt; status, 0);
    assert!(rt; wrote.as_slice() == b"bound f 81\n".as_slice());
    Ok(())
}

#[test]
fn at_most_a_hundred_thousand_positions_are_analysed(rt: HostRuntime) -> Result<(), Fail> {
    let alloc = rt.alloc();
    for (count, text) in [
        (99_999, "bound f 100000\n"),
        (100_000, "refused 20 TooLarge\n"),
    ] {
        let mut code = vec![in alloc; 0xE1A0_0000; count]?;
        code.push(0xE12F_FF1E)?;
        let (_, wrote) = outcome_of(&rt, alloc, &code)?;
        assert!(rt; wrote.as_slice() == text.as_bytes(), "{text}");
    }
    Ok(())
}
