use super::*;

// Whether the cycles are edited before the ask, its count and its bound, and how many entries there are then: two
// opening edits, the pin, a start and a finish of each kind, and the answer; the pin and the answer; the edit, the pin,
// COST, SYSTEM, SOLUTION and BOUND, and the answer.
const ASKS: [(bool, u64, u128, usize); 3] = [
    (false, 2, 1, 26),
    (false, 2, 1, 28),
    (true, 3, 2, 39),
];

#[test]
fn one_session_runs_each_kind_once(rt: HostRuntime) -> Result<(), Fail> {
    let alloc = rt.alloc();
    let mut stage = stage_of(alloc, 1)?;
    for (edits, at, cycles, entries) in ASKS {
        if edits {
            stage.edit(1, slower())?;
        }
        let asked = stage.ask(alloc, 1, b"f")?;
        assert!(rt; is_answer(asked, at, Outcome::Bound(cycles)));
        assert_eq!(rt; stage.history().len(), entries);
    }
    Ok(())
}

// The first ask finds no memory, the second one is answered.
fn fails_once(alloc: Global, stage: &mut Stage) -> Result<bool, AllocError> {
    let one = stage.ask(alloc, 1, b"f")?;
    let two = stage.ask(alloc, 1, b"f")?;
    Ok(
        one.outcome == Outcome::Memory
            && is_answer(two, 2, Outcome::Bound(1))
            && stage.history().len() == 30,
    )
}

// Whether each work has run once, and those of the kind `failing` twice.
fn have_run(works: &[Counter], failing: u8) -> bool {
    for work in works {
        if work.runs != 1 + (work.kind.number() == failing) as u64 {
            return false;
        }
    }
    works.len() == 11
}

#[test]
fn a_run_without_memory_is_the_answer_of_its_ask_alone(rt: HostRuntime) -> Result<(), Fail> {
    let alloc = rt.alloc();
    for number in ALL {
        let mut stage = stage_failing(alloc, number, 1)?;
        assert!(rt; fails_once(alloc, &mut stage)?);
        let works = stage.close()?;
        assert!(rt; have_run(works.as_slice(), number));
    }
    Ok(())
}
