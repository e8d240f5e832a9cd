ghost use Rattle.std.specs.Prelude.{◌≡◌, ◌∷◌, [], Some, IfOk, All, map};
ghost use Rattle.wc_core.specs.Answers.{LeavesFree};
ghost use Rattle.wc_model.specs.Workspace.Kinds.{describe};
ghost use Rattle.wc_session.specs.Alone.{IsAlone};

use super::*;
use std::alloc::{AllocError, Global};
use std::sync::{Arc, Wait};
use std::test::Fail;
use wc_core::{Core, Given, Job, Work};
use wc_io::{Lines, MemorySink, MemorySource};
use wc_model::{Describe, Ended, Entry, Fact, Image, Kind, Outcome, Part, Table, default_hardware};
use wc_registry::Registry;

// A work whose value is the cycles of the class `alu` and one more. The run numbered `failing` finds no memory.
#[derive(Drop)]
struct Adder {
    kind: Kind,
    runs: u64,
    failing: u64,
}

impl Work for Adder {
    type Value = u64;

    ghost use Rattle.std.specs.Prelude.{◌≡◌, ◌∷◌, [], Option, Some};
    ghost use Rattle.wc_model.specs.Workspace.Kinds.{describe};
    ghost use Rattle.wc_model.specs.declared.kinds.Part.TheVariants.{Cycles, Steer};
    ghost use Rattle.wc_model.specs.declared.values.Outcome.TheVariants.{Bound};

    ghost kind_of = { λ w. w.kind };

    ghost runs_of = { λ w. w.runs };

    ghost described = { describe 2 [] (Steer ∷ []) ∷ describe 11 (2 ∷ []) (Cycles ∷ []) ∷ [] };

    ghost is_feature = { λ _ _ _ _. Unit {0} };

    ghost outcome_of = { λ v. Some (Bound v) };

    ghost chain = { λ _ _ _. Unit {0} };

    fn kind(&self) -> Kind {
        self.kind
    }

    fn runs(&self) -> u64 {
        self.runs
    }

    fn run(
        &mut self,
        alloc: Global,
        job: &Job,
        _given: &Given<u64>,
    ) -> Result<Arc<u64>, AllocError> {
        self.runs += 1;
        if self.runs == self.failing {
            return Err(AllocError);
        }
        let cycles = job.inputs.hardware.cycles.alu as u64;
        Ok(Arc::new(alloc, cycles + 1)?)
    }

    fn outcome(value: &u64) -> Option<Outcome>
        ensures { result ≡ Some (Outcome.Bound value.now) }
    {
        Some(Outcome::Bound(*value as u128))
    }

    ghost stable = { λ _ _ _ _ _ _ f. f };

    ghost tells = { λ _ _ _ _. tt };
}

fn kind(number: u8) -> Result<Kind, AllocError>
    ensures { IfOk result (λ k. k ≡ number) }
{
    match Kind::new(number) {
        Some(kind) => Ok(kind),
        None => Err(AllocError),
    }
}

fn described(
    alloc: Global,
    number: u8,
    required: Vec<Kind>,
    part: Part,
) -> Result<Describe, AllocError>
    ensures { IfOk result (λ d. d ≡ describe number required.items (part ∷ [])) }
{
    let mut reads = Vec::new(alloc);
    reads.push(part)?;
    Ok(Describe {
        provides: kind(number)?,
        requires_: Table::new(required),
        reads: Table::new(reads),
    })
}

// A kind that reads what steers, and the bound, which requires it and reads the cycles.
fn describes(alloc: Global) -> Result<Vec<Describe>, AllocError>
    ensures { IfOk result (λ ds. ds.items ≡ describe 2 [] (Part.Steer ∷ []) ∷ describe 11 (2 ∷ []) (Part.Cycles ∷ []) ∷ []) }
{
    let mut required = Vec::new(alloc);
    required.push(kind(2)?)?;
    let mut list = Vec::new(alloc);
    list.push(described(alloc, 2, Vec::new(alloc), Part::Steer)?)?;
    list.push(described(alloc, 11, required, Part::Cycles)?)?;
    Ok(list)
}

// One work of each kind. That of the bound may fail.
fn works_of(alloc: Global, failing: u64) -> Result<Vec<Adder>, AllocError>
    ensures kinds { IfOk result (λ ws. map (λ w. w.kind) ws.items ≡ 2 ∷ 11 ∷ []) }
    ensures runs { IfOk result (λ ws. All (λ w. w.runs ≡ 0) ws.items) }
{
    let mut works = Vec::new(alloc);
    works.push(Adder {
        kind: kind(2)?,
        runs: 0,
        failing: 0,
    })?;
    works.push(Adder {
        kind: kind(11)?,
        runs: 0,
        failing,
    })?;
    Ok(works)
}

fn empty_image(alloc: Global) -> Image {
    Image {
        bytes: Table::new(Vec::new(alloc)),
        ranges: Table::new(Vec::new(alloc)),
        names: Table::new(Vec::new(alloc)),
    }
}

fn registry_of(alloc: Global) -> Result<Registry, AllocError>
    ensures { IfOk result (λ r. r ≡ describe 2 [] (Part.Steer ∷ []) ∷ describe 11 (2 ∷ []) (Part.Cycles ∷ []) ∷ []) }
{
    match Registry::new(alloc, describes(alloc)?) {
        Ok(registry) => Ok(registry),
        Err(_fault) => Err(AllocError),
    }
}

fn image_of(alloc: Global) -> Result<Arc<Image>, AllocError> {
    Ok(Arc::new(alloc, empty_image(alloc))?)
}

fn core_of(alloc: Global, facts: Vec<Fact>, failing: u64) -> Result<Core<Adder>, AllocError>
    ensures free { IfOk result (λ c. LeavesFree c.opening c.history 1) }
    ensures alone { IfOk result (λ c. IsAlone c.opening) }
{
    let image = image_of(alloc)?;
    let registry = registry_of(alloc)?;
    let works = works_of(alloc, failing)?;
    let core = Core::new(alloc, image, registry, works, default_hardware(), facts, 1)?;
    Ok(core)
}

// A script whose reads give at most 7 bytes, and of which the reads with these numbers fail.
fn source_of(alloc: Global, script: &str, failing: &[u64]) -> Result<MemorySource, AllocError> {
    let mut left = Vec::new(alloc);
    left.extend_from_slice(script.as_bytes())?;
    let mut fails = Vec::new(alloc);
    fails.extend_from_slice(failing)?;
    Ok(MemorySource {
        place: 1,
        left,
        most: 7,
        calls: 0,
        failing: fails,
        faults: 0,
    })
}

fn sink_of(alloc: Global, failing: &[u64]) -> Result<MemorySink, AllocError> {
    let mut fails = Vec::new(alloc);
    fails.extend_from_slice(failing)?;
    Ok(MemorySink {
        place: 2,
        path: String::new(alloc),
        held: Vec::new(alloc),
        calls: 0,
        failing: fails,
        faults: 0,
    })
}

fn serve_over<R: Wait>(
    rt: &R,
    alloc: Global,
    core: &mut Core<Adder>,
    source: MemorySource,
    sink: MemorySink,
) -> Result<SessionEnd<MemorySource, MemorySink>, AllocError>
    requires free { LeavesFree core.old.opening core.old.history 1 }
    requires alone { IsAlone core.old.opening }
{
    let image = empty_image(alloc);
    match Lines::new(alloc, source) {
        Ok(lines) => Ok(session(rt, alloc, core, &image, lines, sink)),
        Err((_source, error)) => Err(error),
    }
}

fn serve<R: Wait>(
    rt: &R,
    alloc: Global,
    source: MemorySource,
    sink: MemorySink,
) -> Result<SessionEnd<MemorySource, MemorySink>, AllocError> {
    let mut core = core_of(alloc, Vec::new(alloc), 0)?;
    serve_over(rt, alloc, &mut core, source, sink)
}

fn replies<R: Wait>(
    rt: &R,
    alloc: Global,
    script: &str,
) -> Result<SessionEnd<MemorySource, MemorySink>, AllocError> {
    let source = source_of(alloc, script, &[])?;
    let sink = sink_of(alloc, &[])?;
    serve(rt, alloc, source, sink)
}

#[test]
fn an_ask_is_answered_on_the_inputs_of_its_count(rt: HostRuntime) -> Result<(), Fail> {
    let script =
        "bound f\nhardware {\"cycles\":{\"alu\":2}}\nbound f\n \t\nbound f\r\nquit\nbound f\n";
    let end = replies(&rt, rt.alloc(), script)?;
    let want = "bound f 2 at 1\nedit 2\nbound f 3 at 2\nbound f 3 at 2\n";
    assert_eq!(rt; end.sink.held.as_slice(), want.as_bytes());
    assert_eq!(rt; end.ended, Ended::Quit);
    assert_eq!(rt; end.source.place, 1);
    assert_eq!(rt; end.sink.place, 2);
    Ok(())
}

#[test]
fn a_session_goes_on_after_want_of_memory(rt: HostRuntime) -> Result<(), Fail> {
    let alloc = rt.alloc();
    let mut core = core_of(alloc, Vec::new(alloc), 1)?;
    let source = source_of(alloc, "bound f\nbound f\n", &[])?;
    let end = serve_over(&rt, alloc, &mut core, source, sink_of(alloc, &[])?)?;
    assert_eq!(rt;
        end.sink.held.as_slice(),
        b"memory\nbound f 2 at 1\n".as_slice()
    );
    // the opening edit, two runs of the first ask, and one of the second, each between a pin and an answer
    assert_eq!(rt; core.history().len(), 11);
    Ok(())
}

#[test]
fn an_ask_runs_the_kinds_that_it_lacks(rt: HostRuntime) -> Result<(), Fail> {
    let alloc = rt.alloc();
    let mut core = core_of(alloc, Vec::new(alloc), 0)?;
    let script =
        "bound f\nbound f\nhardware {\"cycles\":{\"alu\":2}}\nbound f\nadd noreturn 0x8004;\nbound f\n";
    let end = serve_over(
        &rt,
        alloc,
        &mut core,
        source_of(alloc, script, &[])?,
        sink_of(alloc, &[])?,
    )?;
    let want = "bound f 2 at 1\nbound f 2 at 1\nedit 2\nbound f 3 at 2\nedit 3\nbound f 3 at 3\n";
    assert_eq!(rt; end.sink.held.as_slice(), want.as_bytes());
    // three edits, four pins and answers, and two runs, none, one and two
    assert_eq!(rt; core.history().len(), 21);
    Ok(())
}

fn two_facts(alloc: Global) -> Result<Vec<Fact>, AllocError> {
    let mut name = Vec::new(alloc);
    name.extend_from_slice(b"a.elf")?;
    let mut facts = Vec::new(alloc);
    facts.push(Fact::Loop {
        at: 0x8004,
        bound: Some(9),
        within: Table::new(Vec::new(alloc)),
    })?;
    facts.push(Fact::Checksum {
        name: Table::new(name),
        value: 7,
    })?;
    Ok(facts)
}

#[test]
fn a_listing_has_the_facts_and_the_hardware(rt: HostRuntime) -> Result<(), Fail> {
    let alloc = rt.alloc();
    let source = source_of(alloc, "hardware {\"cycles\":{\"taken\":5}}\nlist\n", &[])?;
    let mut core = core_of(alloc, two_facts(alloc)?, 0)?;
    let end = serve_over(&rt, alloc, &mut core, source, sink_of(alloc, &[])?)?;
    let want =
        "edit 4\nlist 2 at 4\n2 loop 0x00008004 9;\n3 checksum \"a.elf\" 7;\nhardware {\"cycles\":{\"alu\":1,\"mul\":1,\"div\":1,\"load\":1,\"store\":1,\"multi\":1,\"branch\":1,\"system\":1,\"taken\":5,\"per_register\":0},\"icache\":null}\n";
    assert_eq!(rt; end.sink.held.as_slice(), want.as_bytes());
    assert_eq!(rt; end.ended, Ended::End);
    Ok(())
}

#[test]
fn a_line_that_is_refused_says_why(rt: HostRuntime) -> Result<(), Fail> {
    let table = [
        ("bound  f", "50 BadCommand"),
        ("bound\tf", "50 BadCommand"),
        ("bound f g", "50 BadCommand"),
        ("bound f\t", "50 BadCommand"),
        ("bound ", "50 BadCommand"),
        ("bound", "50 BadCommand"),
        ("Bound f", "50 BadCommand"),
        ("list ", "50 BadCommand"),
        (" list", "50 BadCommand"),
        ("quit ", "50 BadCommand"),
        ("QUIT", "50 BadCommand"),
        ("\0", "50 BadCommand"),
        ("hardware", "50 BadCommand"),
        ("hardware ", "10 BadJson"),
        ("hardware  {", "10 BadJson"),
        ("hardware []", "11 BadField root"),
        ("hardware {\"cycles\":{\"alu\":-1}}", "11 BadField alu"),
        ("hardware {\"icache\":{\"sets\":3}}", "11 BadField sets"),
        ("add", "50 BadCommand"),
        ("add ", "12 BadFact line 1"),
        ("add loop 0x8004 9", "12 BadFact line 1"),
        ("add checksum \"a\" 4294967296;", "12 BadFact line 1"),
        (
            "add checksum \"a\" 1; checksum \"b\" 2;",
            "12 BadFact line 1",
        ),
        ("add loop \"nope\" 3;", "13 UnknownLabel line 1"),
        ("drop", "50 BadCommand"),
        ("drop ", "50 BadCommand"),
        ("drop x", "50 BadCommand"),
        ("drop +2", "50 BadCommand"),
        ("drop 2 ", "50 BadCommand"),
        ("drop  2", "50 BadCommand"),
        ("drop\t2", "50 BadCommand"),
        ("drop 18446744073709551616", "50 BadCommand"),
        ("drop 99999999999999999999", "50 BadCommand"),
        ("drop 18446744073709551615", "52 NoFact"),
        ("drop 0000000000000000000000002", "52 NoFact"),
        // edit 1 is the opening hardware
        ("drop 1", "52 NoFact"),
    ];
    for (line, fault) in table {
        let end = replies(&rt, rt.alloc(), line)?;
        let mut want = Vec::new(rt.alloc());
        want.extend_from_slice(b"refused ")?;
        want.extend_from_slice(fault.as_bytes())?;
        want.push(b'\n')?;
        assert_eq!(rt; end.sink.held, want, "{line:?}");
        assert_eq!(rt; end.ended, Ended::End);
    }
    Ok(())
}

#[test]
fn every_fact_and_every_cache_is_an_edit(rt: HostRuntime) -> Result<(), Fail> {
    let table = [
        "add loop 0x8004 9;",
        "add loop 0x8004 9 in 0x8000;",
        "add multibranch 0x8004 to 0x8000;",
        "add noreturn 0x8004;",
        "add limit [0x8004] <= 3;",
        "add checksum \"a\" 1;",
        "hardware {\"icache\":{\"sets\":1,\"ways\":1,\"line\":16,\"hit\":0,\"miss\":9,\"start\":\"any\"}}",
    ];
    for line in table {
        let end = replies(&rt, rt.alloc(), line)?;
        assert_eq!(rt;
            end.sink.held.as_slice(),
            b"edit 2\n".as_slice(),
            "{line:?}"
        );
        assert_eq!(rt; end.ended, Ended::End);
    }
    Ok(())
}

const PLAIN: &str =
    "hardware {\"cycles\":{\"alu\":1,\"mul\":1,\"div\":1,\"load\":1,\"store\":1,\"multi\":1,\"branch\":1,\"system\":1,\"taken\":0,\"per_register\":0},\"icache\":null}\n";

fn with_plain(alloc: Global, replies: &[&str]) -> Result<Vec<u8>, AllocError> {
    let mut want = Vec::new(alloc);
    for part in replies {
        want.extend_from_slice(part.as_bytes())?;
        want.extend_from_slice(PLAIN.as_bytes())?;
    }
    Ok(want)
}

#[test]
fn facts_are_added_listed_and_dropped(rt: HostRuntime) -> Result<(), Fail> {
    let script =
        "add checksum \"a.elf\" 7;\nadd \t/* of 2 */checksum\"\" 0x10 ; // all\nlist\ndrop 02\ndrop 2\nlist\nadd checksum \"c\" 0;\nlist\n";
    let end = replies(&rt, rt.alloc(), script)?;
    let want = with_plain(
        rt.alloc(),
        &[
            "edit 2\nedit 3\nlist 2 at 3\n2 checksum \"a.elf\" 7;\n3 checksum \"\" 16;\n",
            "edit 4\nrefused 52 NoFact\nlist 1 at 4\n3 checksum \"\" 16;\n",
            "edit 5\nlist 2 at 5\n3 checksum \"\" 16;\n5 checksum \"c\" 0;\n",
        ],
    )?;
    assert_eq!(rt; end.sink.held, want);
    Ok(())
}

#[test]
fn a_refused_line_has_no_entry_but_that_of_a_drop(rt: HostRuntime) -> Result<(), Fail> {
    let alloc = rt.alloc();
    let mut source = source_of(alloc, "drop 99\n", &[])?;
    for _ in 0..4_097 {
        source.left.push(b'x')?;
    }
    let rest = "\nfrob\nadd loop \"nope\" 3;\nadd loop 0x8004 9\nhardware {\nlist\n";
    source.left.extend_from_slice(rest.as_bytes())?;
    let mut core = core_of(alloc, Vec::new(alloc), 0)?;
    let end = serve_over(&rt, alloc, &mut core, source, sink_of(alloc, &[])?)?;
    let want = with_plain(
        alloc,
        &[
            "refused 52 NoFact\nrefused 51 LongLine\nrefused 50 BadCommand\nrefused 13 UnknownLabel line 1\nrefused 12 BadFact line 1\nrefused 10 BadJson\nlist 0 at 1\n",
        ],
    )?;
    assert_eq!(rt; end.sink.held, want);
    let missing = Entry::NoFact {
        session: 1,
        number: 99,
        at: 1,
    };
    let listed = Entry::List { session: 1, at: 1 };
    assert_eq!(rt; core.history().len(), 3);
    assert_eq!(rt; core.history()[1], missing);
    assert_eq!(rt; core.history()[2], listed);
    Ok(())
}

// So many bytes `x`, or so many empty lines.
fn many(alloc: Global, count: usize, byte: u8) -> Result<MemorySource, AllocError> {
    let mut source = source_of(alloc, "", &[])?;
    for _ in 0..count {
        source.left.push(byte)?;
    }
    source.most = 0;
    Ok(source)
}

#[test]
fn too_many_lines_end_a_session(rt: HostRuntime) -> Result<(), Fail> {
    let alloc = rt.alloc();
    let most = serve(
        &rt,
        alloc,
        many(alloc, 10_000, b'\n')?,
        sink_of(alloc, &[])?,
    )?;
    assert_eq!(rt; most.sink.held.as_slice(), b"".as_slice());
    assert_eq!(rt; most.ended, Ended::End);
    let over = serve(
        &rt,
        alloc,
        many(alloc, 10_001, b'\n')?,
        sink_of(alloc, &[])?,
    )?;
    assert_eq!(rt;
        over.sink.held.as_slice(),
        b"refused 53 TooMuch\n".as_slice()
    );
    assert_eq!(rt; over.ended, Ended::TooMuch);
    let long = serve(&rt, alloc, many(alloc, 4_097, b'x')?, sink_of(alloc, &[])?)?;
    assert_eq!(rt;
        long.sink.held.as_slice(),
        b"refused 51 LongLine\n".as_slice()
    );
    assert_eq!(rt; long.ended, Ended::End);
    Ok(())
}

#[test]
fn a_failure_of_the_outside_ends_a_session(rt: HostRuntime) -> Result<(), Fail> {
    let alloc = rt.alloc();
    // the second write is that of the fault's text
    let source = source_of(alloc, "x\nx\nquit\n", &[])?;
    let unwritten = serve(&rt, alloc, source, sink_of(alloc, &[2])?)?;
    assert_eq!(rt; unwritten.sink.held.as_slice(), b"refused ".as_slice());
    assert_eq!(rt; unwritten.ended, Ended::WriteFault);
    assert_eq!(rt; unwritten.sink.faults, 1);
    // the first read gives the first line
    let source = source_of(alloc, "list x\nquit\n", &[2])?;
    let unread = serve(&rt, alloc, source, sink_of(alloc, &[])?)?;
    assert_eq!(rt;
        unread.sink.held.as_slice(),
        b"refused 50 BadCommand\n".as_slice()
    );
    assert_eq!(rt; unread.ended, Ended::ReadFault);
    assert_eq!(rt; unread.source.faults, 1);
    Ok(())
}
