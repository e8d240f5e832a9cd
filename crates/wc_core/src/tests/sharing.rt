use super::*;

// Session 2 asks for the same name while the first run of session 1 is out, waits for it, and goes on first. Session 1
// answers so, and so many runs start, the last ones those of all kinds.
fn share_a_key(
    alloc: Global,
    stage: &mut Stage,
    outcome: Outcome,
    count: usize,
) -> Result<bool, AllocError> {
    stage.pin(1, b"f")?;
    stage.pin(2, b"f")?;
    stage.start(1)?;
    let runner = stage.wait(2)?;
    stage.land(alloc, 1)?;
    stage.start(2)?;
    stage.land(alloc, 2)?;
    let one = stage.finish(alloc, 1)?;
    let two = stage.finish(alloc, 2)?;
    let kinds = starts(alloc, stage.history(), 0)?;
    Ok(
        runner == 1
            && is_answer(one, 2, outcome)
            && is_answer(two, 2, Outcome::Bound(1))
            && kinds.len() == count
            && kinds.as_slice().ends_with(ALL.as_slice()),
    )
}

fn stage_for(alloc: Global, twice: bool, failing: u8) -> Result<Stage, AllocError> {
    if twice {
        stage_of_twice(alloc, 2)
    } else {
        stage_failing(alloc, failing, 2)
    }
}

// Whether each kind has a second work, the kind whose first run finds no memory, what session 1 answers, and how many
// runs start.
const SHARED: [(bool, u8, Outcome, usize); 3] = [
    (false, 0, Outcome::Bound(1), 11),
    (true, 0, Outcome::Bound(1), 11),
    (false, 1, Outcome::Memory, 12),
];

#[test]
fn two_sessions_share_a_key(rt: HostRuntime) -> Result<(), Fail> {
    let alloc = rt.alloc();
    for (twice, failing, outcome, count) in SHARED {
        let mut stage = stage_for(alloc, twice, failing)?;
        assert!(rt; share_a_key(alloc, &mut stage, outcome, count)?);
    }
    Ok(())
}

// Session 2 takes what session 1 stored before an edit of the cycles, and runs the touched kinds on its own inputs.
fn takes_stored(alloc: Global, stage: &mut Stage) -> Result<bool, AllocError> {
    stage.pin(1, b"f")?;
    stage.pin(2, b"f")?;
    let one = stage.finish(alloc, 1)?;
    stage.edit(3, slower())?;
    let before = stage.history().len();
    let two = stage.finish(alloc, 2)?;
    let started = have_started(alloc, stage, before, &[8, 9, 10, 11])?;
    let dropped = drops(alloc, stage.history())?;
    Ok(
        is_answer(one, 2, Outcome::Bound(1))
            && is_answer(two, 2, Outcome::Bound(1))
            && started
            && dropped.as_slice() == [8, 9, 10, 11].as_slice(),
    )
}

#[test]
fn a_waiting_ask_takes_what_another_stored(rt: HostRuntime) -> Result<(), Fail> {
    let alloc = rt.alloc();
    let mut stage = stage_of(alloc, 3)?;
    assert!(rt; takes_stored(alloc, &mut stage)?);
    Ok(())
}

// Sessions 1 and 2 run the first kind at once, for which session 3 waits; then each answers.
fn run_at_once(alloc: Global, stage: &mut Stage) -> Result<bool, AllocError> {
    stage.pin(1, b"f")?;
    stage.pin(2, b"x")?;
    stage.pin(3, b"y")?;
    stage.start(1)?;
    stage.start(2)?;
    let runner = stage.wait(3)?;
    stage.land(alloc, 1)?;
    stage.start(3)?;
    let started = have_started(alloc, stage, 0, &[1, 1, 1])?;
    stage.land(alloc, 2)?;
    stage.land(alloc, 3)?;
    Ok(runner == 1 && started)
}

#[test]
fn two_works_of_a_kind_run_at_once(rt: HostRuntime) -> Result<(), Fail> {
    let alloc = rt.alloc();
    let mut stage = stage_of_twice(alloc, 3)?;
    assert!(rt; run_at_once(alloc, &mut stage)?);
    for session in 1..4u32 {
        let asked = stage.finish(alloc, session)?;
        assert!(rt; is_answer(asked, 2, Outcome::Bound(1)));
    }
    Ok(())
}

// The second name is still stored, the first one isn't.
fn asks_again(alloc: Global, stage: &mut Stage) -> Result<bool, AllocError> {
    let before = stage.history().len();
    stage.ask(alloc, 1, &[1])?;
    let stored = stage.history().len() == before + 2;
    stage.ask(alloc, 1, &[0])?;
    let started = have_started(alloc, stage, before, ALL.as_slice())?;
    Ok(stored && started)
}

#[test]
fn the_earliest_of_33_names_is_computed_again(rt: HostRuntime) -> Result<(), Fail> {
    let alloc = rt.alloc();
    let mut stage = stage_of(alloc, 1)?;
    for name in 0..33u8 {
        stage.ask(alloc, 1, &[name])?;
    }
    assert!(rt; asks_again(alloc, &mut stage)?);
    Ok(())
}

#[test]
fn all_64_sessions_have_an_ask_open(rt: HostRuntime) -> Result<(), Fail> {
    let alloc = rt.alloc();
    let mut stage = stage_of(alloc, 64)?;
    for session in 1..65u32 {
        stage.pin(session, &[session as u8])?;
    }
    for session in 1..65u32 {
        let asked = stage.finish(alloc, session)?;
        assert!(rt; is_answer(asked, 2, Outcome::Bound(1)));
    }
    // the opening edits; of each session the pin, a start and a finish of each kind, and the answer
    assert_eq!(rt; stage.history().len(), 2 + 64 * 24);
    Ok(())
}
