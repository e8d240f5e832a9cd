use crate::serve_tests::{call, has_file, house_with};
use std::alloc::{AllocError, Global};
use std::test::Fail;
use wc_io::{MemoryFile, MemoryHouse};

// A house with a binary `a.elf`, a script `in`, a file `out`, a hardware `h.json` and facts `f.ff`.
fn house_of_files(
    alloc: Global,
    script: &str,
    hardware: &str,
    facts: &str,
) -> Result<MemoryHouse, AllocError> {
    let mut house = house_with(alloc, script.as_bytes(), &[])?;
    for (path, text) in [("h.json", hardware), ("f.ff", facts)] {
        house.files.push(MemoryFile {
            path: String::from_str(alloc, path)?,
            bytes: Vec::from_slice(alloc, text.as_bytes())?,
            most: 0,
            failing: Vec::new(alloc),
        })?;
    }
    Ok(house)
}

const NO_RUNS: &str = "runs GRAPH 0\n\
runs NEST 0\n\
runs BOUNDS 0\n\
runs LINES 0\n\
runs MUST 0\n\
runs MAY 0\n\
runs CATEGORY 0\n\
runs COST 0\n\
runs SYSTEM 0\n\
runs SOLUTION 0\n";

const OPENED_WITH_A_FACT: &str = "history 8\n\
1 edit 0 1 hardware {\"cycles\":{\"alu\":1,\"mul\":1,\"div\":1,\"load\":1,\"store\":1,\"multi\":1,\"branch\":1,\"system\":1,\"taken\":0,\"per_register\":0},\"icache\":null}\n\
2 edit 0 2 add checksum \"a b\" 16;\n\
3 pin 1 f at 2\n\
4 start 1 BOUND f stamp 0\n\
5 finish 1 BOUND f stamp 0 kept\n\
6 answer 1 f at 2 bound 2\n\
7 edit 1 3 hardware {\"cycles\":{\"alu\":2,\"mul\":1,\"div\":1,\"load\":1,\"store\":1,\"multi\":1,\"branch\":1,\"system\":1,\"taken\":0,\"per_register\":0},\"icache\":null}\n\
8 list 1 at 3\n";

#[test]
fn the_opening_facts_are_the_edits_after_the_hardware(rt: HostRuntime) -> Result<(), Fail> {
    let alloc = rt.alloc();
    let script = "bound f\nhardware {\"cycles\":{\"alu\":2}}\nlist\nquit\n";
    let mut house = house_of_files(
        alloc,
        script,
        "{}",
        "checksum \"a b\" 0x10; // of the file\n",
    )?;
    let (status, wrote) = call(&rt, alloc, "serve a.elf f.ff - in out", &mut house, &[])?;
    assert_eq!(rt; status, 0);
    let replies =
        b"bound f 2 at 2\nedit 3\nlist 1 at 3\n2 checksum \"a b\" 16;\nhardware {\"cycles\":{\"alu\":2,\"mul\":1,\"div\":1,\"load\":1,\"store\":1,\"multi\":1,\"branch\":1,\"system\":1,\"taken\":0,\"per_register\":0},\"icache\":null}\n";
    assert!(rt; has_file(&house, "out", replies.as_slice()));
    let mut report = String::from_str(alloc, OPENED_WITH_A_FACT)?;
    report.push_str(NO_RUNS)?;
    report.push_str("runs BOUND 1\nsession 1 quit\n")?;
    assert!(rt; wrote.as_slice() == report.as_bytes());
    Ok(())
}

#[test]
fn the_facts_are_read_before_the_session_is_opened(rt: HostRuntime) -> Result<(), Fail> {
    let alloc = rt.alloc();
    for (line, hardware, facts, status, text, opened) in [
        (
            "serve a.elf f.ff h.json in out",
            "{",
            "frob",
            6,
            "refused 10 BadJson\n",
            2,
        ),
        (
            "serve a.elf f.ff h.json in out",
            "{}",
            "frob",
            6,
            "refused 12 BadFact line 1\n",
            3,
        ),
        (
            "serve a.elf f.ff - in out",
            "{}",
            "loop \"nope\" 3;",
            6,
            "refused 13 UnknownLabel line 1\n",
            2,
        ),
        (
            "serve a.elf none h.json in out",
            "{}",
            "",
            3,
            "read fault\n",
            3,
        ),
        (
            "serve a.elf f.ff h.json none out",
            "{}",
            "",
            3,
            "read fault\n",
            4,
        ),
    ] {
        let mut house = house_of_files(alloc, "quit\n", hardware, facts)?;
        let (was, wrote) = call(&rt, alloc, line, &mut house, &[])?;
        assert_eq!(rt; was, status, "{line}");
        assert!(rt; wrote.as_slice() == text.as_bytes(), "{line}");
        assert_eq!(rt; house.opened.len(), opened, "{line}");
        assert!(rt; has_file(&house, "out", b"old"), "{line}");
    }
    Ok(())
}
