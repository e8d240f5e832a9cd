ghost use Rattle.std.specs.Prelude.{◌≡◌, ◌≤◌, IfOk};

use super::*;
use std::alloc::{AllocError, Global};
use std::test::Fail;
use wc_base::Fault;
use wc_io::{Failed, MemorySink};
use wc_model::{
    Asked, Edit, End, Ended, Entry, Fact, Kind, Listing, Outcome, Table, Text, default_hardware,
};

fn sink_of(alloc: Global, failing: &[u64]) -> Result<MemorySink, AllocError> {
    let mut fails = Vec::new(alloc);
    fails.extend_from_slice(failing)?;
    Ok(MemorySink {
        place: 0,
        path: String::new(alloc),
        held: Vec::new(alloc),
        calls: 0,
        failing: fails,
        faults: 0,
    })
}

fn text(alloc: Global, bytes: &str) -> Result<Text, AllocError> {
    let mut items = Vec::new(alloc);
    items.extend_from_slice(bytes.as_bytes())?;
    Ok(Table::new(items))
}

fn kind(number: u8) -> Result<Kind, AllocError>
    requires { (1 ≤ number) × (number ≤ 11) }
    ensures { IfOk result (λ k. k ≡ number) }
{
    match Kind::new(number) {
        Some(kind) => Ok(kind),
        None => Err(AllocError),
    }
}

fn a_loop(alloc: Global) -> Fact {
    Fact::Loop {
        at: 0x8004,
        bound: Some(9),
        within: Table::new(Vec::new(alloc)),
    }
}

const REPORT: &str = "history 14\n\
1 edit 0 1 hardware {\"cycles\":{\"alu\":1,\"mul\":1,\"div\":1,\"load\":1,\"store\":1,\"multi\":1,\"branch\":1,\"system\":1,\"taken\":0,\"per_register\":0},\"icache\":null}\n\
2 edit 1 2 add loop 0x00008004 9;\n\
3 pin 1 f at 2\n\
4 start 1 GRAPH f stamp 0\n\
5 finish 1 GRAPH f stamp 0 kept\n\
6 start 1 BOUNDS f stamp 2\n\
7 finish 1 BOUNDS f stamp 2 dropped\n\
8 finish 2 SOLUTION f stamp 3 memory\n\
9 answer 1 f at 2 bound 22\n\
10 answer 1 f at 4 fault 31 Unbounded 0x00008004\n\
11 answer 2 f at 4 memory\n\
12 edit 1 4 drop 2\n\
13 nofact 64 18446744073709551615 at 4\n\
14 list 64 at 4\n\
runs GRAPH 1\n\
runs NEST 2\n\
runs BOUNDS 3\n\
runs LINES 4\n\
runs MUST 5\n\
runs MAY 6\n\
runs CATEGORY 7\n\
runs COST 8\n\
runs SYSTEM 9\n\
runs SOLUTION 10\n\
runs BOUND 11\n\
session 1 quit\n\
session 2 end\n\
session 3 toomuch\n\
session 4 readfault\n\
session 5 writefault\n";

// Prints the report of all forms of entries on a sink.
fn print(alloc: Global, sink: &mut MemorySink) -> Result<Result<(), Failed>, AllocError> {
    let history = [
        Entry::Edit {
            session: 0,
            count: 1,
            edit: Edit::Hardware(default_hardware()),
        },
        Entry::Edit {
            session: 1,
            count: 2,
            edit: Edit::Add(a_loop(alloc)),
        },
        Entry::Pin {
            session: 1,
            name: text(alloc, "f")?,
            at: 2,
        },
        Entry::Start {
            session: 1,
            kind: kind(1)?,
            name: text(alloc, "f")?,
            stamp: 0,
        },
        Entry::Finish {
            session: 1,
            kind: kind(1)?,
            name: text(alloc, "f")?,
            stamp: 0,
            end: End::Kept,
        },
        Entry::Start {
            session: 1,
            kind: kind(3)?,
            name: text(alloc, "f")?,
            stamp: 2,
        },
        Entry::Finish {
            session: 1,
            kind: kind(3)?,
            name: text(alloc, "f")?,
            stamp: 2,
            end: End::Dropped,
        },
        Entry::Finish {
            session: 2,
            kind: kind(10)?,
            name: text(alloc, "f")?,
            stamp: 3,
            end: End::Memory,
        },
        Entry::Answer {
            session: 1,
            name: text(alloc, "f")?,
            at: 2,
            outcome: Outcome::Bound(22),
        },
        Entry::Answer {
            session: 1,
            name: text(alloc, "f")?,
            at: 4,
            outcome: Outcome::Fault(Fault::Unbounded(0x8004)),
        },
        Entry::Answer {
            session: 2,
            name: text(alloc, "f")?,
            at: 4,
            outcome: Outcome::Memory,
        },
        Entry::Edit {
            session: 1,
            count: 4,
            edit: Edit::Drop(2),
        },
        Entry::NoFact {
            session: 64,
            number: 0xffff_ffff_ffff_ffff,
            at: 4,
        },
        Entry::List { session: 64, at: 4 },
    ];
    let ends = [
        Ended::Quit,
        Ended::End,
        Ended::TooMuch,
        Ended::ReadFault,
        Ended::WriteFault,
    ];
    Ok(write_report(sink, &history, &[1, 2, 3, 4, 5, 6, 7, 8, 9, 10, 11], &ends))
}

#[test]
fn a_report_has_each_entry_the_runs_and_the_ends(rt: HostRuntime) -> Result<(), Fail> {
    let alloc = rt.alloc();
    let mut sink = sink_of(alloc, &[])?;
    assert!(rt; print(alloc, &mut sink)? == Ok(()));
    assert_eq!(rt; sink.held.as_slice(), REPORT.as_bytes());
    // the tenth write fails: a beginning stands there
    let mut failing = sink_of(alloc, &[10])?;
    assert!(rt; print(alloc, &mut failing)? == Err(Failed));
    assert!(rt; failing.held.len() < REPORT.len());
    assert!(rt; REPORT.as_bytes().starts_with(failing.held.as_slice()));
    Ok(())
}

const REPLIES: &str = "edit 3\n\
bound main 340282366920938463463374607431768211455 at 7\n\
refused 31 Unbounded 0x00008004 at 8\n\
memory\n\
refused 51 LongLine\n\
list 2 at 5\n\
2 loop 0x00008004 9;\n\
4 noreturn 0x00008010;\n\
hardware {\"cycles\":{\"alu\":1,\"mul\":1,\"div\":1,\"load\":1,\"store\":1,\"multi\":1,\"branch\":1,\"system\":1,\"taken\":0,\"per_register\":0},\"icache\":null}\n\
memory\n";

fn listing(alloc: Global) -> Result<Listing, AllocError> {
    let mut facts = Vec::new(alloc);
    facts.push((2u64, a_loop(alloc)))?;
    facts.push((4u64, Fact::Noreturn { at: 0x8010 }))?;
    Ok(Listing {
        at: 5,
        facts: Table::new(facts),
        hardware: default_hardware(),
    })
}

#[test]
fn each_reply_has_its_lines(rt: HostRuntime) -> Result<(), Fail> {
    let alloc = rt.alloc();
    let faulty = Outcome::Fault(Fault::Unbounded(0x8004));
    let greatest = Outcome::Bound(0xffff_ffff_ffff_ffff_ffff_ffff_ffff_ffff);
    let table = [
        Reply::Edit(3),
        Reply::Bound(
            text(alloc, "main")?,
            Asked {
                at: 7,
                outcome: greatest,
            },
        ),
        Reply::Bound(
            text(alloc, "main")?,
            Asked {
                at: 8,
                outcome: faulty,
            },
        ),
        Reply::Bound(
            text(alloc, "main")?,
            Asked {
                at: 9,
                outcome: Outcome::Memory,
            },
        ),
        Reply::Refused(Fault::LongLine),
        Reply::Listing(listing(alloc)?),
        Reply::Memory,
    ];
    let mut sink = sink_of(alloc, &[])?;
    for reply in &table {
        assert!(rt; write_reply(&mut sink, reply) == Ok(()));
    }
    assert_eq!(rt; sink.held.as_slice(), REPLIES.as_bytes());
    Ok(())
}
