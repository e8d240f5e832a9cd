//! Programs, as the words from 0x8000 on, facts and hardware for them, and what `bound` answers.
use crate::Status;
use crate::tests::call;
use std::alloc::{AllocError, Global};
use std::thread::Threads;
use wc_asm::{Program, is_writable, write_elf};
use wc_io::{MemoryFile, MemoryHouse};
use wc_model::Table;

// mov r0, #10; subs r0, r0, #1; bne back; bx lr
pub const LOOP: [u32; 4] = [0xE3A0_000A, 0xE250_0001, 0x1AFF_FFFD, 0xE12F_FF1E];

pub const TWO_WAYS: &str =
    "{\"icache\":{\"sets\":1,\"ways\":2,\"line\":16,\"hit\":0,\"miss\":10,\"start\":\"any\"}}";

// a switch over a table of addresses, one way of which calls `g`
pub const SWITCH: [u32; 15] = [
    0xE92D_4010,
    0xE59F_401C,
    0xE350_0001,
    0x979F_F100,
    0xEA00_0003,
    0x0000_801C,
    0x0000_8024,
    0xEB00_0002,
    0xE1A0_0000,
    0xE8BD_8010,
    0x0000_002A,
    0xE3A0_000A,
    0xE250_0001,
    0x1AFF_FFFD,
    0xE12F_FF1E,
];

pub const SWITCH_CYCLES: &str =
    "{\"cycles\":{\"load\":2,\"mul\":3,\"div\":12,\"system\":10,\"taken\":2,\"per_register\":1}}";

pub const SWITCH_CACHE: &str =
    "{\"cycles\":{\"load\":2,\"mul\":3,\"div\":12,\"system\":10,\"taken\":2,\"per_register\":1},\"icache\":{\"sets\":128,\"ways\":2,\"line\":32,\"hit\":0,\"miss\":10,\"start\":\"empty\"}}";

pub const SWITCH_FACTS: &str =
    "loop \"g\" + 4 9; multibranch \"f\" + 12 to \"f\" + 0x1C, \"f\" + 0x24;";

pub const BRANCH: [u32; 5] = [
    0xE350_0000,
    0x0A00_0001,
    0xE3A0_0001,
    0xE3A0_0001,
    0xE12F_FF1E,
];

// three loops in one another, and four
pub const THREE_LOOPS: [u32; 9] = [
    0xE3A0_0000,
    0xE3A0_1000,
    0xE252_2001,
    0x1AFF_FFFD,
    0xE251_1001,
    0x1AFF_FFFA,
    0xE250_0001,
    0x1AFF_FFF7,
    0xE12F_FF1E,
];

pub const FOUR_LOOPS: [u32; 12] = [
    0xE3A0_3000,
    0xE3A0_0000,
    0xE3A0_1000,
    0xE252_2001,
    0x1AFF_FFFD,
    0xE251_1001,
    0x1AFF_FFFA,
    0xE250_0001,
    0x1AFF_FFF7,
    0xE253_3001,
    0x1AFF_FFF4,
    0xE12F_FF1E,
];

pub const SKIPPED_HALF: [u32; 7] = [
    0xE3A0_0002,
    0xE351_0000,
    0x0A00_0000,
    0xE3A0_2001,
    0xE250_0001,
    0x1AFF_FFFA,
    0xE12F_FF1E,
];

// a function with a loop that is called at 0x8004 and at 0x8008
pub const CALLED_TWICE: [u32; 8] = [
    0xE92D_4010,
    0xEB00_0001,
    0xEB00_0000,
    0xE8BD_8010,
    0xE3A0_000A,
    0xE250_0001,
    0x1AFF_FFFD,
    0xE12F_FF1E,
];

// mov r0, #1; bx lr
pub const STRAIGHT: [u32; 2] = [0xE3A0_0001, 0xE12F_FF1E];

// a loop of two heads
pub const TWO_HEADS: [u32; 6] = [
    0xE350_0000,
    0x0A00_0000,
    0xE3A0_1001,
    0xE250_0001,
    0x1AFF_FFFC,
    0xE12F_FF1E,
];

// a loop in a loop
pub const TWO_LOOPS: [u32; 7] = [
    0xE3A0_0002,
    0xE3A0_1003,
    0xE251_1001,
    0x1AFF_FFFD,
    0xE250_0001,
    0x1AFF_FFFA,
    0xE12F_FF1E,
];

// a function that calls itself
pub const RECURSIVE: [u32; 3] = [0xE92D_4010, 0xEBFF_FFFD, 0xE8BD_8010];

// two calls of one `bx lr`
pub const TWO_CALLS: [u32; 5] = [
    0xE92D_4010,
    0xEB00_0001,
    0xEB00_0000,
    0xE8BD_8010,
    0xE12F_FF1E,
];

// a call of what a register says
pub const CALL_BY_REGISTER: [u32; 6] = [
    0xE92D_4010,
    0xE12F_FF33,
    0xE8BD_8010,
    0xE12F_FF1E,
    0xE1A0_0000,
    0xE12F_FF1E,
];

pub const UNKNOWN_WORD: [u32; 1] = [0xE7F0_00F0];

pub const OUT_OF_TEXT: [u32; 1] = [0xEA00_0000];

// An executable with the names `f` at 0x8000 and `g` at 0x802c.
pub fn binary(alloc: Global, words: &[u32]) -> Result<Vec<u8>, AllocError> {
    let mut names = Vec::new(alloc);
    names.push((Table::new(Vec::from_slice(alloc, b"f")?), 0x8000))?;
    names.push((Table::new(Vec::from_slice(alloc, b"g")?), 0x802C))?;
    let program = Program {
        start: 0x8000,
        words: Table::new(Vec::from_slice(alloc, words)?),
        names: Table::new(names),
    };
    if is_writable(&program) {
        write_elf(alloc, &program)
    } else {
        Ok(Vec::new(alloc))
    }
}

fn add_file(
    house: &mut MemoryHouse,
    alloc: Global,
    path: &str,
    bytes: Vec<u8>,
) -> Result<(), AllocError> {
    house.files.push(MemoryFile {
        path: String::from_str(alloc, path)?,
        bytes,
        most: 0,
        failing: Vec::new(alloc),
    })?;
    Ok(())
}

// The status of `bound` for the function `f` of words, and what it wrote.
pub fn outcome_of<R: Threads + Sync>(
    rt: &R,
    alloc: Global,
    words: &[u32],
    facts: &str,
    hardware: &str,
) -> Result<(Status, Vec<u8>), AllocError> {
    let mut house = MemoryHouse {
        files: Vec::new(alloc),
        calls: 0,
        failing: Vec::new(alloc),
        opened: Vec::new(alloc),
    };
    add_file(&mut house, alloc, "a.elf", binary(alloc, words)?)?;
    add_file(
        &mut house,
        alloc,
        "f.ff",
        Vec::from_slice(alloc, facts.as_bytes())?,
    )?;
    add_file(
        &mut house,
        alloc,
        "h.json",
        Vec::from_slice(alloc, hardware.as_bytes())?,
    )?;
    let line = match (facts.is_empty(), hardware.is_empty()) {
        (true, true) => "bound a.elf - - f",
        (false, true) => "bound a.elf f.ff - f",
        (true, false) => "bound a.elf - h.json f",
        (false, false) => "bound a.elf f.ff h.json f",
    };
    call(rt, alloc, line, &mut house, &[])
}
