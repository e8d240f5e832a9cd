use super::*;

// What an edit touches.
#[derive(Clone, Copy)]
enum Touch {
    Steer,
    Loops,
    Limits,
    Cache,
    Cycles,
    Nothing,
}

// The kinds whose closure has what is touched, in order.
fn touched(touch: Touch) -> &'static [u8] {
    match touch {
        Touch::Steer => &[1, 2, 3, 4, 5, 6, 7, 8, 9, 10, 11],
        Touch::Loops => &[3, 9, 10, 11],
        Touch::Limits => &[9, 10, 11],
        Touch::Cache => &[4, 5, 6, 7, 8, 9, 10, 11],
        Touch::Cycles => &[8, 9, 10, 11],
        Touch::Nothing => &[],
    }
}

fn fact_of(alloc: Global, touch: Touch) -> Result<Option<Fact>, AllocError> {
    let mut targets = Vec::new(alloc);
    targets.push(0x8008)?;
    let mut left = Vec::new(alloc);
    left.push(Term::Constant(1))?;
    let mut right = Vec::new(alloc);
    right.push(Term::Constant(2))?;
    Ok(match touch {
        Touch::Steer => Some(Fact::Multibranch {
            at: 0x8004,
            to: Table::new(targets),
        }),
        Touch::Loops => Some(loop_bound(alloc, 0x8004, 3)),
        Touch::Limits => Some(Fact::Limit {
            left: Table::new(left),
            right: Table::new(right),
        }),
        Touch::Nothing => Some(Fact::Checksum {
            name: Text::new(Vec::new(alloc)),
            value: 0,
        }),
        _ => None,
    })
}

fn edit_of(alloc: Global, touch: Touch) -> Result<Edit, AllocError> {
    if let Some(fact) = fact_of(alloc, touch)? {
        return Ok(Edit::Add(fact));
    }
    if let Touch::Cycles = touch {
        return Ok(slower());
    }
    let Hardware { cycles, cache: _ } = default_hardware();
    Ok(Edit::Hardware(Hardware {
        cycles,
        cache: Some(Cache {
            sets: 1,
            ways: 4,
            line: 16,
            start: StartState::Any,
        }),
    }))
}

// Session 2 edits while the run number `out` of session 1 is out.
fn edit_beside(alloc: Global, stage: &mut Stage, touch: Touch, out: u8) -> Result<(), AllocError> {
    stage.pin(1, b"f")?;
    for _run in 1..out {
        stage.start(1)?;
        stage.land(alloc, 1)?;
    }
    stage.start(1)?;
    let edit = edit_of(alloc, touch)?;
    stage.edit(2, edit)?;
    stage.land(alloc, 1)
}

// Session 1 answers on its own inputs, and so many of its last runs are dropped; session 2 starts all that is touched.
fn goes_on(
    alloc: Global,
    stage: &mut Stage,
    kinds: &[u8],
    count: usize,
) -> Result<bool, AllocError> {
    let one = stage.finish(alloc, 1)?;
    let before = stage.history().len();
    let two = stage.ask(alloc, 2, b"f")?;
    let started = have_started(alloc, stage, before, kinds)?;
    let dropped = drops(alloc, stage.history())?;
    Ok(
        is_answer(one, 2, Outcome::Bound(1))
            && two.at == 3
            && started
            && dropped.len() == count
            && kinds.ends_with(dropped.as_slice()),
    )
}

// What is touched, which run is out, and how many runs of the first ask are dropped: the last of those kinds that are
// touched. All of them are started again.
const ROWS: [(Touch, u8, usize); 11] = [
    (Touch::Steer, 1, 11),
    (Touch::Steer, 11, 1),
    (Touch::Loops, 3, 4),
    (Touch::Loops, 8, 3),
    (Touch::Limits, 9, 3),
    (Touch::Limits, 8, 3),
    (Touch::Cache, 5, 7),
    (Touch::Cache, 3, 8),
    (Touch::Cycles, 8, 4),
    (Touch::Cycles, 7, 4),
    (Touch::Nothing, 1, 0),
];

#[test]
fn an_edit_races_a_run(rt: HostRuntime) -> Result<(), Fail> {
    let alloc = rt.alloc();
    for (touch, out, count) in ROWS {
        let mut stage = stage_of(alloc, 2)?;
        edit_beside(alloc, &mut stage, touch, out)?;
        assert!(rt; goes_on(alloc, &mut stage, touched(touch), count)?);
    }
    Ok(())
}

// Which fact is dropped, or none where a bound is added, and what the edit answers. Fact 2 is live at first.
const EDITS: [(Option<u64>, Edited); 6] = [
    (Some(1), Edited::NoFact(2)),
    (Some(3), Edited::NoFact(2)),
    (None, Edited::Done(3)),
    (Some(2), Edited::Done(4)),
    (Some(2), Edited::NoFact(4)),
    (None, Edited::Done(5)),
];

fn edit_number(alloc: Global, dropped: Option<u64>) -> Edit {
    match dropped {
        Some(number) => Edit::Drop(number),
        None => Edit::Add(loop_bound(alloc, 0x8008, 5)),
    }
}

// The two added facts are live.
fn lists_two(alloc: Global, listing: &Listing) -> bool {
    let live = [
        (3, loop_bound(alloc, 0x8008, 5)),
        (5, loop_bound(alloc, 0x8008, 5)),
    ];
    listing.at == 5
        && listing.facts.items() == live.as_slice()
        && listing.hardware == default_hardware()
}

#[test]
fn edits_are_counted_and_listed(rt: HostRuntime) -> Result<(), Fail> {
    let alloc = rt.alloc();
    let mut stage = stage_of(alloc, 1)?;
    for (dropped, answer) in EDITS {
        assert_eq!(rt; stage.edit(1, edit_number(alloc, dropped))?, answer);
    }
    let listing = stage.list(1)?;
    assert!(rt; lists_two(alloc, &listing));
    Ok(())
}
