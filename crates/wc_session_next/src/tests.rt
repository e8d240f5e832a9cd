ghost use Rattle.std.specs.Prelude.{◌≡◌, ◌∷◌, [], IfOk, All, map};
ghost use Rattle.wc_model.specs.Workspace.Kinds.{describe};

use super::*;
use std::alloc::{AllocError, Global};
use std::marker::Brand;
use std::sync::{Arc, Wait};
use std::test::Fail;
use wc_core::{Given, Job, Work};
use wc_flight::{Named, Prepared, Workspace, prepare};
use wc_io::{Lines, MemorySink, MemorySource};
use wc_model::{Describe, Ended, Image, Kind, Outcome, Part, Table, default_hardware};
use wc_registry::Registry;

// A work whose value is the cycles of the class `alu` and one more. The run numbered `failing` finds no memory.
#[derive(Drop)]
struct Adder {
    kind: Kind,
    runs: u64,
    failing: u64,
}

impl Work for Adder {
    type Value = u64;

    ghost use Rattle.std.specs.Prelude.{◌≡◌, ◌∷◌, [], Option, Some};
    ghost use Rattle.wc_model.specs.Workspace.Kinds.{describe};
    ghost use Rattle.wc_model.specs.declared.kinds.Part.TheVariants.{Cycles, Steer};
    ghost use Rattle.wc_model.specs.declared.values.Outcome.TheVariants.{Bound};

    ghost kind_of = { λ w. w.kind };

    ghost runs_of = { λ w. w.runs };

    ghost described = { describe 2 [] (Steer ∷ []) ∷ describe 11 (2 ∷ []) (Cycles ∷ []) ∷ [] };

    ghost is_feature = { λ _ _ _ _. Unit {0} };

    ghost outcome_of = { λ v. Some (Bound v) };

    ghost chain = { λ _ _ _. Unit {0} };

    fn kind(&self) -> Kind {
        self.kind
    }

    fn runs(&self) -> u64 {
        self.runs
    }

    fn run(
        &mut self,
        alloc: Global,
        job: &Job,
        _given: &Given<u64>,
    ) -> Result<Arc<u64>, AllocError> {
        self.runs += 1;
        if self.runs == self.failing {
            return Err(AllocError);
        }
        let cycles = job.inputs.hardware.cycles.alu as u64;
        Ok(Arc::new(alloc, cycles + 1)?)
    }

    fn outcome(value: &u64) -> Option<Outcome>
        ensures { result ≡ Some (Outcome.Bound value.now) }
    {
        Some(Outcome::Bound(*value as u128))
    }

    ghost stable = { λ _ _ _ _ _ _ f. f };

    ghost tells = { λ _ _ _ _. tt };
}

fn kind(number: u8) -> Result<Kind, AllocError>
    ensures { IfOk result (λ k. k ≡ number) }
{
    match Kind::new(number) {
        Some(kind) => Ok(kind),
        None => Err(AllocError),
    }
}

fn described(
    alloc: Global,
    number: u8,
    required: Vec<Kind>,
    part: Part,
) -> Result<Describe, AllocError>
    ensures { IfOk result (λ d. d ≡ describe number required.items (part ∷ [])) }
{
    let mut reads = Vec::new(alloc);
    reads.push(part)?;
    Ok(Describe {
        provides: kind(number)?,
        requires_: Table::new(required),
        reads: Table::new(reads),
    })
}

// A kind that reads what steers, and the bound, which requires it and reads the cycles.
fn describes(alloc: Global) -> Result<Vec<Describe>, AllocError>
    ensures { IfOk result (λ ds. ds.items ≡ describe 2 [] (Part.Steer ∷ []) ∷ describe 11 (2 ∷ []) (Part.Cycles ∷ []) ∷ []) }
{
    let mut required = Vec::new(alloc);
    required.push(kind(2)?)?;
    let mut list = Vec::new(alloc);
    list.push(described(alloc, 2, Vec::new(alloc), Part::Steer)?)?;
    list.push(described(alloc, 11, required, Part::Cycles)?)?;
    Ok(list)
}

fn registry_of(alloc: Global) -> Result<Registry, AllocError>
    ensures { IfOk result (λ r. r ≡ describe 2 [] (Part.Steer ∷ []) ∷ describe 11 (2 ∷ []) (Part.Cycles ∷ []) ∷ []) }
{
    match Registry::new(alloc, describes(alloc)?) {
        Ok(registry) => Ok(registry),
        Err(_fault) => Err(AllocError),
    }
}

// One work of each kind. That of the bound may fail.
fn works_of(alloc: Global, failing: u64) -> Result<Vec<Adder>, AllocError>
    ensures kinds { IfOk result (λ ws. map (λ w. w.kind) ws.items ≡ 2 ∷ 11 ∷ []) }
    ensures runs { IfOk result (λ ws. All (λ w. w.runs ≡ 0) ws.items) }
{
    let mut works = Vec::new(alloc);
    works.push(Adder {
        kind: kind(2)?,
        runs: 0,
        failing: 0,
    })?;
    works.push(Adder {
        kind: kind(11)?,
        runs: 0,
        failing,
    })?;
    Ok(works)
}

fn empty_image(alloc: Global) -> Image {
    Image {
        bytes: Table::new(Vec::new(alloc)),
        ranges: Table::new(Vec::new(alloc)),
        names: Table::new(Vec::new(alloc)),
    }
}

fn prepared_with(alloc: Global, failing: u64) -> Result<Prepared<Adder>, AllocError> {
    let image = Arc::new(alloc, empty_image(alloc))?;
    let registry = registry_of(alloc)?;
    let works = works_of(alloc, failing)?;
    prepare(
        alloc,
        image,
        registry,
        works,
        default_hardware(),
        Vec::new(alloc),
        1,
    )
}

// A script whose reads give at most 7 bytes, and of which the reads with these numbers fail.
fn source_of(alloc: Global, script: &str, failing: &[u64]) -> Result<MemorySource, AllocError> {
    let mut left = Vec::new(alloc);
    left.extend_from_slice(script.as_bytes())?;
    let mut fails = Vec::new(alloc);
    fails.extend_from_slice(failing)?;
    Ok(MemorySource {
        place: 1,
        left,
        most: 7,
        calls: 0,
        failing: fails,
        faults: 0,
    })
}

fn sink_of(alloc: Global, failing: &[u64]) -> Result<MemorySink, AllocError> {
    let mut fails = Vec::new(alloc);
    fails.extend_from_slice(failing)?;
    Ok(MemorySink {
        place: 2,
        path: String::new(alloc),
        held: Vec::new(alloc),
        calls: 0,
        failing: fails,
        faults: 0,
    })
}

fn serve_in<R: Wait, N: Named>(
    rt: &R,
    alloc: Global,
    prepared: Prepared<Adder>,
    source: MemorySource,
    sink: MemorySink,
) -> Result<SessionEnd<MemorySource, MemorySink>, AllocError>
    requires { (prepared.desk ≡ N.desk) × (prepared.opening ≡ N.opening) }
{
    let (workspace, mut passes) = Workspace::<N, Adder>::new(prepared);
    let Some(pass) = passes.pop() else {
        return Err(AllocError);
    };
    let image = empty_image(alloc);
    match Lines::new(alloc, source) {
        Ok(lines) => Ok(session(rt, alloc, &workspace, &image, pass, lines, sink)),
        Err((_source, error)) => Err(error),
    }
}

fn serve<R: Wait>(
    rt: &R,
    alloc: Global,
    failing: u64,
    source: MemorySource,
    sink: MemorySink,
) -> Result<SessionEnd<MemorySource, MemorySink>, AllocError> {
    let prepared = prepared_with(alloc, failing)?;
    serve_in::<R, Brand>(rt, alloc, prepared, source, sink)
}

#[test]
fn each_line_has_its_reply(rt: HostRuntime) -> Result<(), Fail> {
    let alloc = rt.alloc();
    let table = [
        // the bound is one more than the cycles of `alu`; nothing is read after `quit`
        (
            "bound f\nhardware {\"cycles\":{\"alu\":2}}\nbound f\n \t\nbound f\r\nquit\nbound f\n",
            0,
            "bound f 2 at 1\nedit 2\nbound f 3 at 2\nbound f 3 at 2\n",
            Ended::Quit,
        ),
        // the first run of the bound finds no memory
        (
            "bound f\nbound f\n",
            1,
            "memory\nbound f 2 at 1\n",
            Ended::End,
        ),
        (
            "add loop 0x8004 9;\nlist\ndrop 2\ndrop 2\nfrob\nadd loop \"nope\" 3;\nhardware {\nadd loop 0x8004 9\n",
            0,
            "edit 2\nlist 1 at 2\n2 loop 0x00008004 9;\nhardware {\"cycles\":{\"alu\":1,\"mul\":1,\"div\":1,\"load\":1,\"store\":1,\"multi\":1,\"branch\":1,\"system\":1,\"taken\":0,\"per_register\":0},\"icache\":null}\nedit 3\nrefused 52 NoFact\nrefused 50 BadCommand\nrefused 13 UnknownLabel line 1\nrefused 10 BadJson\nrefused 12 BadFact line 1\n",
            Ended::End,
        ),
        ("", 0, "", Ended::End),
    ];
    for (script, failing, want, ended) in table {
        let source = source_of(alloc, script, &[])?;
        let end = serve(&rt, alloc, failing, source, sink_of(alloc, &[])?)?;
        assert_eq!(rt; end.sink.held.as_slice(), want.as_bytes(), "{script}");
        assert_eq!(rt; end.ended, ended);
        assert_eq!(rt; end.pass.session(), 1);
    }
    Ok(())
}

// So many bytes `x`, or so many empty lines.
fn many(alloc: Global, count: usize, byte: u8) -> Result<MemorySource, AllocError> {
    let mut source = source_of(alloc, "", &[])?;
    for _ in 0..count {
        source.left.push(byte)?;
    }
    source.most = 0;
    Ok(source)
}

#[test]
fn too_much_and_failures_end_a_session(rt: HostRuntime) -> Result<(), Fail> {
    let alloc = rt.alloc();
    let table = [
        (many(alloc, 10_000, b'\n')?, 0, "", Ended::End),
        (
            many(alloc, 10_001, b'\n')?,
            0,
            "refused 53 TooMuch\n",
            Ended::TooMuch,
        ),
        (
            many(alloc, 4_096, b'x')?,
            0,
            "refused 50 BadCommand\n",
            Ended::End,
        ),
        (
            many(alloc, 4_097, b'x')?,
            0,
            "refused 51 LongLine\n",
            Ended::End,
        ),
        // the second write is that of the fault's text
        (
            source_of(alloc, "x\nx\nquit\n", &[])?,
            2,
            "refused ",
            Ended::WriteFault,
        ),
        // the first read gives the first line
        (
            source_of(alloc, "list x\nquit\n", &[2])?,
            0,
            "refused 50 BadCommand\n",
            Ended::ReadFault,
        ),
    ];
    for (source, failing, want, ended) in table {
        let end = serve(&rt, alloc, 0, source, sink_of(alloc, &[failing])?)?;
        assert_eq!(rt; end.sink.held.as_slice(), want.as_bytes());
        assert_eq!(rt; end.ended, ended);
    }
    Ok(())
}
