use crate::Status;
use crate::tests::{STRAIGHT, call, house_of, program};
use std::alloc::{AllocError, Global};
use std::test::Fail;
use std::thread::Threads;
use wc_io::{MemoryFile, MemoryHouse};

// A house with a binary `a.elf` and a hardware file.
fn house_with(
    alloc: Global,
    binary: Vec<u8>,
    path: &str,
    hardware: Vec<u8>,
) -> Result<MemoryHouse, AllocError> {
    let mut house = house_of(alloc, binary, 0, &[])?;
    house.files.push(MemoryFile {
        path: String::from_str(alloc, path)?,
        bytes: hardware,
        most: 0,
        failing: Vec::new(alloc),
    })?;
    Ok(house)
}

// The line of `bound` for code at 0x8000 on a hardware, and its status.
fn outcome_on<R: Threads + Sync>(
    rt: &R,
    alloc: Global,
    words: &[u32],
    hardware: &str,
) -> Result<(Status, Vec<u8>), AllocError> {
    let text = Vec::from_slice(alloc, hardware.as_bytes())?;
    let mut house = house_with(alloc, program(alloc, words)?, "h.json", text)?;
    call(rt, alloc, "bound a.elf - h.json f", &mut house, &[])
}

#[test]
fn the_hardware_file_times_the_code(rt: HostRuntime) -> Result<(), Fail> {
    let alloc = rt.alloc();
    for (hardware, text) in [
        ("{}", "bound f 2\n"),
        ("{\"cycles\":{\"alu\":2}}", "bound f 3\n"),
        (
            "{\"cycles\":{\"alu\":2,\"branch\":65535}}",
            "bound f 65537\n",
        ),
    ] {
        let (status, wrote) = outcome_on(&rt, alloc, &STRAIGHT, hardware)?;
        assert_eq!(rt; status, 0);
        assert!(rt; wrote.as_slice() == text.as_bytes(), "{text}");
    }
    Ok(())
}

#[test]
fn a_taken_step_and_each_register_cost_more(rt: HostRuntime) -> Result<(), Fail> {
    let alloc = rt.alloc();
    // cmp; beq over two words; bx lr. The jump costs 1 + (1 + 4) + (1 + 4) cycles, the fall-through
    // 1 + 1 + 1 + 1 + (1 + 4), so the shorter way is the dearer one.
    let branch = [
        0xE350_0000,
        0x0A00_0001,
        0xE3A0_0001,
        0xE3A0_0001,
        0xE12F_FF1E,
    ];
    let (_, wrote) = outcome_on(&rt, alloc, &branch, "{\"cycles\":{\"taken\":4}}")?;
    assert!(rt; wrote.as_slice() == b"bound f 11\n".as_slice());
    // push {r4, lr}; pop {r4, pc}: (1 + 2) + (1 + 2 + 2)
    let stack = [0xE92D_4010, 0xE8BD_8010];
    let (_, wrote) = outcome_on(
        &rt,
        alloc,
        &stack,
        "{\"cycles\":{\"taken\":2,\"per_register\":1}}",
    )?;
    assert!(rt; wrote.as_slice() == b"bound f 8\n".as_slice());
    Ok(())
}

#[test]
fn a_hardware_file_is_refused_for_its_first_fault(rt: HostRuntime) -> Result<(), Fail> {
    let alloc = rt.alloc();
    for (hardware, text) in [
        ("{", "refused 10 BadJson\n"),
        ("{\"cycles\":{\"alu\":1.5}}", "refused 11 BadField alu\n"),
        (
            "{\"icache\":{\"sets\":1,\"ways\":2,\"line\":16,\"hit\":0,\"miss\":10,\"start\":\"some\"}}",
            "refused 11 BadField start\n",
        ),
        (
            "{\"icache\":{\"sets\":1,\"ways\":2,\"line\":16,\"hit\":5,\"miss\":4,\"start\":\"any\"}}",
            "refused 11 BadField miss\n",
        ),
    ] {
        let (status, wrote) = outcome_on(&rt, alloc, &STRAIGHT, hardware)?;
        assert_eq!(rt; status, 6, "{text}");
        assert!(rt; wrote.as_slice() == text.as_bytes(), "{text}");
    }
    Ok(())
}

#[test]
fn a_long_hardware_file_is_refused(rt: HostRuntime) -> Result<(), Fail> {
    let alloc = rt.alloc();
    let long = vec![in alloc; b' '; 16_777_217]?;
    let mut house = house_with(alloc, program(alloc, &STRAIGHT)?, "h.json", long)?;
    let (status, wrote) = call(&rt, alloc, "bound a.elf - h.json f", &mut house, &[])?;
    assert_eq!(rt; status, 6);
    assert!(rt; wrote.as_slice() == b"refused 6 LongFile hardware\n".as_slice());
    Ok(())
}

// Whether the house was asked for these paths, in this order, each as a source.
pub fn are_opened(house: &MemoryHouse, paths: &[&str]) -> bool {
    house.opened.len() == paths.len()
        && house
            .opened
            .iter()
            .zip(paths)
            .all(|(row, path)| !row.sink && row.path.as_str() == *path)
}

#[test]
fn files_are_read_in_order_up_to_the_first_that_is_refused(rt: HostRuntime) -> Result<(), Fail> {
    let alloc = rt.alloc();
    let bad = Vec::from_slice(alloc, b"{")?;
    let mut house = house_with(alloc, Vec::new(alloc), "h.json", bad)?;
    let (status, wrote) = call(&rt, alloc, "bound a.elf - h.json f", &mut house, &[])?;
    assert_eq!(rt; status, 6);
    assert!(rt; wrote.as_slice() == b"refused 1 Truncated offset 0\n".as_slice());
    assert!(rt; are_opened(&house, &["a.elf"]));
    for (line, status, text, second) in [
        ("bound a.elf - h.json f", 0, "bound f 2\n", "h.json"),
        ("bound a.elf - a.elf f", 6, "refused 10 BadJson\n", "a.elf"),
        ("bound a.elf - b.json f", 3, "read fault\n", "b.json"),
    ] {
        let empty = Vec::from_slice(alloc, b"{}")?;
        let mut house = house_with(alloc, program(alloc, &STRAIGHT)?, "h.json", empty)?;
        let (was, wrote) = call(&rt, alloc, line, &mut house, &[])?;
        assert_eq!(rt; was, status, "{line}");
        assert!(rt; wrote.as_slice() == text.as_bytes(), "{line}");
        assert!(rt; are_opened(&house, &["a.elf", second]), "{line}");
    }
    Ok(())
}

#[test]
fn a_dash_is_the_default_hardware_and_no_path(rt: HostRuntime) -> Result<(), Fail> {
    let alloc = rt.alloc();
    let bad = Vec::from_slice(alloc, b"{")?;
    let mut house = house_with(alloc, program(alloc, &STRAIGHT)?, "-", bad)?;
    let (status, wrote) = call(&rt, alloc, "bound a.elf - - f", &mut house, &[])?;
    assert_eq!(rt; status, 0);
    assert!(rt; wrote.as_slice() == b"bound f 2\n".as_slice());
    assert!(rt; are_opened(&house, &["a.elf"]));
    Ok(())
}
