//! What the whole chain answers: programs with facts, caches and limits, and their bounds or faults.
use std::test::Fail;

mod cube;
mod programs;
mod rows;
mod systems;

use programs::outcome_of;
use rows::rows;
use systems::{flows, is_flow, system_of};

#[test]
fn each_program_has_its_bound_or_its_fault(rt: HostRuntime) -> Result<(), Fail> {
    let alloc = rt.alloc();
    for row in rows() {
        let (status, wrote) = outcome_of(&rt, alloc, row.code, row.facts, row.hardware)?;
        assert_eq!(rt; status, row.status, "{}", row.name);
        assert!(rt; wrote.as_slice() == row.text.as_bytes(), "{}", row.name);
    }
    Ok(())
}

#[test]
fn a_tableau_of_too_many_cells_is_refused(rt: HostRuntime) -> Result<(), Fail> {
    let alloc = rt.alloc();
    let mut code = vec![in alloc; 0x0A00_0000; 285]?;
    code.extend_from_slice(&[0xE1A0_0000, 0xE12F_FF1E])?;
    for (facts, text) in [
        ("", "bound f 287\n"),
        ("limit [0x8000] <= 1;", "refused 41 SystemLimit\n"),
    ] {
        let (_, wrote) = outcome_of(&rt, alloc, &code, facts, "")?;
        assert!(rt; wrote.as_slice() == text.as_bytes(), "{facts}");
    }
    Ok(())
}

#[test]
fn each_program_has_its_flow_system(rt: HostRuntime) -> Result<(), Fail> {
    let alloc = rt.alloc();
    for flow in flows() {
        let Ok(system) = system_of(&rt, alloc, &flow) else {
            return Err(Fail::new(flow.name));
        };
        assert!(rt; is_flow(&system, &flow), "{}", flow.name);
    }
    Ok(())
}
