use crate::Status;
use crate::serve::serve;
use crate::tests::{STRAIGHT, house_of, program, words_of};
use std::alloc::{AllocError, Global};
use std::sync::Wait;
use std::test::Fail;
use std::thread::Threads;
use wc_io::{MemoryFile, MemoryHouse, MemorySink};

// A house with the code in a binary `a.elf`, a script `in`, and a file `out` of which some writes fail, by their numbers.
fn house_over(
    alloc: Global,
    code: &[u32],
    script: &[u8],
    failing: &[u64],
) -> Result<MemoryHouse, AllocError> {
    let mut house = house_of(alloc, program(alloc, code)?, 0, &[])?;
    house.files.push(MemoryFile {
        path: String::from_str(alloc, "in")?,
        bytes: Vec::from_slice(alloc, script)?,
        most: 0,
        failing: Vec::new(alloc),
    })?;
    house.files.push(MemoryFile {
        path: String::from_str(alloc, "out")?,
        bytes: Vec::from_slice(alloc, b"old")?,
        most: 0,
        failing: Vec::from_slice(alloc, failing)?,
    })?;
    Ok(house)
}

pub fn house_with(
    alloc: Global,
    script: &[u8],
    failing: &[u64],
) -> Result<MemoryHouse, AllocError> {
    house_over(alloc, &STRAIGHT, script, failing)
}

// Whether memory was short in the session: a reply says so, or a sink failed where nothing was set to fail.
fn lacks_memory(house: &MemoryHouse) -> bool {
    let short = house.files.iter().any(|file| {
        file.path.as_str() == "out"
            && file
                .bytes
                .windows(7)
                .any(|reply| reply == b"memory\n".as_slice())
    });
    short || (no_write_fails(house) && house.opened.iter().any(|row| row.sink && row.failed))
}

// Whether no write of a file was set to fail.
fn no_write_fails(house: &MemoryHouse) -> bool {
    house.failing.is_empty() && house.files.iter().all(|file| file.failing.is_empty())
}

// The status of a call, and what it printed; some writes of the output fail, by their numbers. Where memory was short there
// is nothing to compare.
pub fn call<R: Threads + Wait + Sync>(
    rt: &R,
    alloc: Global,
    line: &str,
    house: &mut MemoryHouse,
    failing: &[u64],
) -> Result<(Status, Vec<u8>), AllocError> {
    let mut out = MemorySink {
        place: 0,
        path: String::new(alloc),
        held: Vec::new(alloc),
        calls: 0,
        failing: Vec::from_slice(alloc, failing)?,
        faults: 0,
    };
    let words = words_of(alloc, line)?;
    let status = serve(rt, alloc, &words, house, &mut out);
    if status == 5 || (failing.is_empty() && out.faults > 0) || lacks_memory(house) {
        return Err(AllocError);
    }
    Ok((status, out.held))
}

// Whether the house's file of that path holds these bytes.
pub fn has_file(house: &MemoryHouse, path: &str, bytes: &[u8]) -> bool {
    house.files.iter().any(|file| file.path.as_str() == path && file.bytes.as_slice() == bytes)
}

const SCRIPT: &[u8] = b"bound f\nhardware {\"cycles\":{\"alu\":2}}\nbound f\nbound f\nquit\n";

const REPORT: &str = "history 12\n\
1 edit 0 1 hardware {\"cycles\":{\"alu\":1,\"mul\":1,\"div\":1,\"load\":1,\"store\":1,\"multi\":1,\"branch\":1,\"system\":1,\"taken\":0,\"per_register\":0},\"icache\":null}\n\
2 pin 1 f at 1\n\
3 start 1 BOUND f stamp 0\n\
4 finish 1 BOUND f stamp 0 kept\n\
5 answer 1 f at 1 bound 2\n\
6 edit 1 2 hardware {\"cycles\":{\"alu\":2,\"mul\":1,\"div\":1,\"load\":1,\"store\":1,\"multi\":1,\"branch\":1,\"system\":1,\"taken\":0,\"per_register\":0},\"icache\":null}\n\
7 pin 1 f at 2\n\
8 start 1 BOUND f stamp 2\n\
9 finish 1 BOUND f stamp 2 kept\n\
10 answer 1 f at 2 bound 3\n\
11 pin 1 f at 2\n\
12 answer 1 f at 2 bound 3\n\
runs GRAPH 0\n\
runs NEST 0\n\
runs BOUNDS 0\n\
runs LINES 0\n\
runs MUST 0\n\
runs MAY 0\n\
runs CATEGORY 0\n\
runs COST 0\n\
runs SYSTEM 0\n\
runs SOLUTION 0\n\
runs BOUND 2\n\
session 1 quit\n";

#[test]
fn asks_are_answered_after_edits_and_the_history_is_printed(rt: HostRuntime) -> Result<(), Fail> {
    let alloc = rt.alloc();
    let mut house = house_with(alloc, SCRIPT, &[])?;
    let (status, wrote) = call(&rt, alloc, "serve a.elf - - in out", &mut house, &[])?;
    assert_eq!(rt; status, 0);
    let replies = b"bound f 2 at 1\nedit 2\nbound f 3 at 2\nbound f 3 at 2\n";
    assert!(rt; has_file(&house, "out", replies.as_slice()));
    assert!(rt; wrote.as_slice() == REPORT.as_bytes());
    Ok(())
}

#[test]
fn words_of_another_form_open_nothing(rt: HostRuntime) -> Result<(), Fail> {
    let alloc = rt.alloc();
    for line in [
        "serve a.elf - - in",
        "serve a.elf - - in in",
        "serve a.elf - - in a.elf",
        "serve a.elf - h.json in h.json",
        "serve a.elf f.ff - in f.ff",
        "serve a.elf - - in out in",
        "server a.elf - - in out",
    ] {
        let mut house = house_with(alloc, SCRIPT, &[])?;
        let (status, wrote) = call(&rt, alloc, line, &mut house, &[])?;
        assert_eq!(rt; status, 2, "{line}");
        assert!(rt; wrote.as_slice() == b"usage\n".as_slice(), "{line}");
        assert!(rt; house.opened.is_empty(), "{line}");
        assert!(rt; has_file(&house, "out", b"old"), "{line}");
    }
    Ok(())
}

#[test]
fn what_cannot_be_opened_ends_the_call(rt: HostRuntime) -> Result<(), Fail> {
    let alloc = rt.alloc();
    for (line, fails, status, text) in [
        ("serve b.elf - - in out", 0, 3, "read fault\n"),
        ("serve a.elf - h.json in out", 0, 3, "read fault\n"),
        ("serve a.elf - - none out", 0, 3, "read fault\n"),
        ("serve a.elf - - in out", 3, 4, "write fault\n"),
        ("serve in - - in out", 0, 6, "refused 2 NotArm offset 0\n"),
    ] {
        let mut house = house_with(alloc, SCRIPT, &[])?;
        house.failing.push(fails)?;
        let (was, wrote) = call(&rt, alloc, line, &mut house, &[])?;
        assert_eq!(rt; was, status, "{line}");
        assert!(rt; wrote.as_slice() == text.as_bytes(), "{line}");
        assert!(rt; has_file(&house, "out", b"old"), "{line}");
    }
    Ok(())
}

fn begins_with(wrote: &[u8], start: &str) -> bool {
    wrote.len() >= start.len() && &wrote[..start.len()] == start.as_bytes()
}

fn ends_with(wrote: &[u8], end: &str) -> bool {
    wrote.len() >= end.len() && &wrote[wrote.len() - end.len()..] == end.as_bytes()
}

#[test]
fn more_than_ten_thousand_lines_are_too_much(rt: HostRuntime) -> Result<(), Fail> {
    let alloc = rt.alloc();
    for (lines, status, reply, end) in [
        (10_000, 0, "", "runs BOUND 0\nsession 1 end\n"),
        (
            10_001,
            7,
            "refused 53 TooMuch\n",
            "runs BOUND 0\nsession 1 toomuch\n",
        ),
    ] {
        let script = vec![in alloc; b'\n'; lines]?;
        let mut house = house_with(alloc, &script, &[])?;
        let (was, wrote) = call(&rt, alloc, "serve a.elf - - in out", &mut house, &[])?;
        assert_eq!(rt; was, status);
        assert!(rt; has_file(&house, "out", reply.as_bytes()));
        assert!(rt; ends_with(&wrote, end));
    }
    Ok(())
}

#[test]
fn a_failed_write_ends_the_session_and_leaves_the_report(rt: HostRuntime) -> Result<(), Fail> {
    let alloc = rt.alloc();
    let mut house = house_with(alloc, SCRIPT, &[2])?;
    let (status, wrote) = call(&rt, alloc, "serve a.elf - - in out", &mut house, &[])?;
    assert_eq!(rt; status, 4);
    assert!(rt; has_file(&house, "out", b"bound "));
    assert!(rt; begins_with(&wrote, "history 5\n"));
    assert!(rt; ends_with(&wrote, "runs BOUND 1\nsession 1 writefault\n"));
    let mut house = house_with(alloc, SCRIPT, &[1])?;
    let (status, wrote) = call(&rt, alloc, "serve a.elf - - in out", &mut house, &[])?;
    assert_eq!(rt; status, 4);
    assert!(rt; has_file(&house, "out", b""));
    assert!(rt; ends_with(&wrote, "runs BOUND 1\nsession 1 writefault\n"));
    Ok(())
}

#[test]
fn a_report_that_cannot_be_written_turns_success_alone_into_a_failure(
    rt: HostRuntime,
) -> Result<(), Fail> {
    let alloc = rt.alloc();
    let mut house = house_with(alloc, SCRIPT, &[])?;
    let (status, wrote) = call(&rt, alloc, "serve a.elf - - in out", &mut house, &[1])?;
    assert_eq!(rt; status, 4);
    assert!(rt; wrote.is_empty());
    let many = vec![in alloc; b'\n'; 10_001]?;
    let mut house = house_with(alloc, &many, &[])?;
    let (status, _) = call(&rt, alloc, "serve a.elf - - in out", &mut house, &[1])?;
    assert_eq!(rt; status, 7);
    Ok(())
}

const REFUSED_REPLIES: &str = "refused 52 NoFact\n\
refused 51 LongLine\n\
refused 50 BadCommand\n\
refused 13 UnknownLabel line 1\n\
refused 12 BadFact line 1\n\
refused 10 BadJson\n\
list 0 at 1\n\
hardware {\"cycles\":{\"alu\":1,\"mul\":1,\"div\":1,\"load\":1,\"store\":1,\"multi\":1,\"branch\":1,\"system\":1,\"taken\":0,\"per_register\":0},\"icache\":null}\n";

const REFUSED_REPORT: &str = "history 3\n\
1 edit 0 1 hardware {\"cycles\":{\"alu\":1,\"mul\":1,\"div\":1,\"load\":1,\"store\":1,\"multi\":1,\"branch\":1,\"system\":1,\"taken\":0,\"per_register\":0},\"icache\":null}\n\
2 nofact 1 99 at 1\n\
3 list 1 at 1\n\
runs GRAPH 0\n\
runs NEST 0\n\
runs BOUNDS 0\n\
runs LINES 0\n\
runs MUST 0\n\
runs MAY 0\n\
runs CATEGORY 0\n\
runs COST 0\n\
runs SYSTEM 0\n\
runs SOLUTION 0\n\
runs BOUND 0\n\
session 1 end\n";

#[test]
fn a_refused_drop_has_an_entry_and_other_refused_lines_have_none(
    rt: HostRuntime,
) -> Result<(), Fail> {
    let alloc = rt.alloc();
    let mut script = Vec::from_slice(alloc, b"drop 99\n")?;
    script.extend_from_slice(&vec![in alloc; b'x'; 4_097]?)?;
    script.extend_from_slice(
        b"\nfrob\nadd loop \"nope\" 3;\nadd loop 0x8004 9\nhardware {\nlist\n",
    )?;
    let code = [0xE3A0_000A, 0xE250_0001, 0x1AFF_FFFD, 0xE12F_FF1E];
    let mut house = house_over(alloc, &code, &script, &[])?;
    let (status, wrote) = call(&rt, alloc, "serve a.elf - - in out", &mut house, &[])?;
    assert_eq!(rt; status, 0);
    assert!(rt; has_file(&house, "out", REFUSED_REPLIES.as_bytes()));
    assert!(rt; wrote.as_slice() == REFUSED_REPORT.as_bytes());
    Ok(())
}
