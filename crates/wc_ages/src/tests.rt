ghost use Rattle.std.specs.Prelude.{◌≡◌, ◌≤◌, IfOk, length};

use crate::{May, Must};
use std::alloc::{AllocError, Global};
use std::test::Fail;

fn must_after(ways: u8, lines: &[u32]) -> Must
    requires some { 1 ≤ ways }
    requires few { ways ≤ 8 }
    ensures { result.ways ≡ ways }
{
    let mut must = Must::new(ways);
    for line in lines {
        must.access(*line);
    }
    must
}

fn in_must(must: &Must) -> [bool; 4] {
    [must.holds(0), must.holds(1), must.holds(2), must.holds(3)]
}

// Lines below 4.
fn may_after(alloc: Global, lines: &[u32]) -> Result<May, AllocError>
    ensures ways { IfOk result (λ m. m.ways ≡ 2) }
    ensures room { IfOk result (λ m. length m.ages ≡ 4) }
{
    let mut may = May::new(alloc, 2, 4)?;
    for line in lines {
        if *line < 4 {
            may.access(*line);
        }
    }
    Ok(may)
}

fn in_may(may: &May) -> [bool; 4]
    requires { length may.now.ages ≡ 4 }
{
    [may.holds(0), may.holds(1), may.holds(2), may.holds(3)]
}

#[test]
fn must_drops_the_oldest_line(rt: HostRuntime) -> Result<(), Fail> {
    assert_eq!(rt;
        in_must(&must_after(1, &[1, 2])),
        [false, false, true, false]
    );
    assert_eq!(rt;
        in_must(&must_after(2, &[1, 2, 3])),
        [false, false, true, true]
    );
    assert_eq!(rt;
        in_must(&must_after(2, &[1, 2, 1, 3])),
        [false, true, false, true]
    );
    assert_eq!(rt;
        in_must(&must_after(8, &[3, 2, 1, 0, 4, 5, 6, 7])),
        [true; 4]
    );
    assert_eq!(rt;
        in_must(&must_after(8, &[3, 2, 1, 0, 4, 5, 6, 7, 8])),
        [true, true, true, false]
    );
    Ok(())
}

#[test]
fn must_joins_by_the_greater_age(rt: HostRuntime) -> Result<(), Fail> {
    let mut both = must_after(2, &[1, 2]);
    both.join(&must_after(2, &[2, 1]));
    assert_eq!(rt; in_must(&both), [false, true, true, false]);
    both.access(3);
    assert_eq!(rt; in_must(&both), [false, false, false, true]);
    let mut one = must_after(2, &[1, 2]);
    one.join(&must_after(2, &[2, 3]));
    assert_eq!(rt; in_must(&one), [false, false, true, false]);
    let mut full = must_after(2, &[1, 2]);
    full.join(&Must::new(2));
    assert_eq!(rt; in_must(&full), [false; 4]);
    Ok(())
}

#[test]
fn may_joins_by_the_smaller_age(rt: HostRuntime) -> Result<(), Fail> {
    let alloc = rt.alloc();
    assert_eq!(rt;
        in_may(&may_after(alloc, &[1, 2, 3])?),
        [false, false, true, true]
    );
    let mut full = may_after(alloc, &[1, 2])?;
    full.join(&may_after(alloc, &[])?);
    assert_eq!(rt; in_may(&full), [false, true, true, false]);
    // lines 1 and 2 are both as young as can be
    let mut both = may_after(alloc, &[1, 2])?;
    both.join(&may_after(alloc, &[2, 1])?);
    both.access(3);
    assert_eq!(rt; in_may(&both), [false, true, true, true]);
    both.access(0);
    assert_eq!(rt; in_may(&both), [true, false, false, true]);
    // a line that is as young as the accessed one grows too
    let mut both = may_after(alloc, &[1, 2])?;
    both.join(&may_after(alloc, &[2, 1])?);
    both.access(1);
    both.access(3);
    assert_eq!(rt; in_may(&both), [false, true, false, true]);
    Ok(())
}
