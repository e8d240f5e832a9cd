use crate::hardware_tests::are_opened;
use crate::tests::{STRAIGHT, call, house_of, program};
use std::alloc::{AllocError, Global};
use std::test::Fail;
use wc_io::{MemoryFile, MemoryHouse};

// A house with a binary `a.elf`, a hardware `h.json` and facts `f.ff`.
fn house_with(alloc: Global, hardware: &str, facts: Vec<u8>) -> Result<MemoryHouse, AllocError> {
    let mut house = house_of(alloc, program(alloc, &STRAIGHT)?, 0, &[])?;
    house.files.push(MemoryFile {
        path: String::from_str(alloc, "h.json")?,
        bytes: Vec::from_slice(alloc, hardware.as_bytes())?,
        most: 0,
        failing: Vec::new(alloc),
    })?;
    house.files.push(MemoryFile {
        path: String::from_str(alloc, "f.ff")?,
        bytes: facts,
        most: 0,
        failing: Vec::new(alloc),
    })?;
    Ok(house)
}

#[test]
fn checksums_leave_the_bound_as_it_is(rt: HostRuntime) -> Result<(), Fail> {
    let alloc = rt.alloc();
    for facts in [
        "",
        "checksum \"a b\" 0x10; // of the file\n",
        "checksum \"a\" 1; checksum \"b\" 2;",
        "checksum \"a\" 1;\nnoreturn \"f\" + 4;",
    ] {
        let text_of_facts = Vec::from_slice(alloc, facts.as_bytes())?;
        let mut house = house_with(alloc, "{\"cycles\":{\"alu\":2}}", text_of_facts)?;
        let line = "bound a.elf f.ff h.json f";
        let (was, wrote) = call(&rt, alloc, line, &mut house, &[])?;
        assert_eq!(rt; was, 0, "{facts}");
        assert!(rt; wrote.as_slice() == b"bound f 3\n".as_slice(), "{facts}");
        assert!(rt; are_opened(&house, &["a.elf", "h.json", "f.ff"]), "{facts}");
    }
    Ok(())
}

#[test]
fn the_first_wrong_token_of_the_facts_is_told(rt: HostRuntime) -> Result<(), Fail> {
    let alloc = rt.alloc();
    for (facts, text) in [
        ("frob", "refused 12 BadFact line 1\n"),
        (
            "loop 0x8004 9;\nloop 0x8004\n",
            "refused 12 BadFact line 3\n",
        ),
        (
            "checksum \"a\" 1;\nchecksum 1;",
            "refused 12 BadFact line 2\n",
        ),
        ("/*", "refused 12 BadFact line 1\n"),
        ("loop \"nope\" 3;", "refused 13 UnknownLabel line 1\n"),
        // a Thumb function has no address here
        (
            "loop \"f\" 3;\nloop \"t\" 3;",
            "refused 13 UnknownLabel line 2\n",
        ),
    ] {
        let text_of_facts = Vec::from_slice(alloc, facts.as_bytes())?;
        let mut house = house_with(alloc, "{}", text_of_facts)?;
        let (status, wrote) = call(&rt, alloc, "bound a.elf f.ff - f", &mut house, &[])?;
        assert_eq!(rt; status, 6, "{facts}");
        assert!(rt; wrote.as_slice() == text.as_bytes(), "{facts}");
        assert!(rt; are_opened(&house, &["a.elf", "f.ff"]), "{facts}");
    }
    Ok(())
}

#[test]
fn a_long_file_of_facts_is_refused(rt: HostRuntime) -> Result<(), Fail> {
    let alloc = rt.alloc();
    let mut house = house_with(alloc, "{}", vec![in alloc; b' '; 16_777_217]?)?;
    let (status, wrote) = call(&rt, alloc, "bound a.elf f.ff - f", &mut house, &[])?;
    assert_eq!(rt; status, 6);
    assert!(rt; wrote.as_slice() == b"refused 6 LongFile facts\n".as_slice());
    Ok(())
}

#[test]
fn facts_are_read_last(rt: HostRuntime) -> Result<(), Fail> {
    let alloc = rt.alloc();
    let bad_hardware = "refused 10 BadJson\n";
    let bad_facts = "refused 12 BadFact line 1\n";
    for (line, hardware, status, text, opened) in [
        // the hardware has the first fault, and the facts aren't opened
        ("bound a.elf f.ff h.json f", "{", 6, bad_hardware, 2),
        ("bound a.elf none h.json f", "{", 6, bad_hardware, 2),
        ("bound a.elf f.ff h.json f", "{}", 6, bad_facts, 3),
        ("bound none f.ff h.json f", "{}", 3, "read fault\n", 1),
        // no facts are no file
        ("bound a.elf - h.json f", "{}", 0, "bound f 2\n", 2),
    ] {
        let mut house = house_with(alloc, hardware, Vec::from_slice(alloc, b"frob")?)?;
        let (was, wrote) = call(&rt, alloc, line, &mut house, &[])?;
        assert_eq!(rt; was, status, "{line}");
        assert!(rt; wrote.as_slice() == text.as_bytes(), "{line}");
        assert_eq!(rt; house.opened.len(), opened, "{line}");
    }
    Ok(())
}

#[test]
fn unreadable_facts_have_the_last_row(rt: HostRuntime) -> Result<(), Fail> {
    let alloc = rt.alloc();
    let mut house = house_with(alloc, "{}", Vec::new(alloc))?;
    let line = "bound a.elf none h.json f";
    let (status, wrote) = call(&rt, alloc, line, &mut house, &[])?;
    assert_eq!(rt; status, 3);
    assert!(rt; wrote.as_slice() == b"read fault\n".as_slice());
    assert!(rt; are_opened(&house, &["a.elf", "h.json", "none"]));
    assert!(rt;
        house
            .opened
            .iter()
            .all(|row| row.failed == (row.path.as_str() == "none"))
    );
    Ok(())
}
