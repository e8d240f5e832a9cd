ghost use Rattle.std.specs.Prelude.{ℕ, ◌≡◌, ◌≤◌, ◌∷◌, [], ◌++◌, Some, IfOk, All, map};
ghost use Rattle.wc_core.specs.Openings.{IsStaffed};
ghost use Rattle.wc_model.specs.Workspace.Kinds.{describe, eleven_kinds};

mod asking;
mod editing;
mod sharing;
mod stage;

use super::*;
use stage::Stage;
use std::alloc::{AllocError, Global};
use std::sync::Arc;
use std::test::Fail;
use wc_model::{
    Asked, Cache, Describe, Edit, End, Entry, Fact, Hardware, Image, Kind, Listing, Outcome, Part,
    StartState, Table, Term, Text, default_hardware,
};
use wc_registry::Registry;

// A work whose value is the cycles of `alu`. The run numbered `failing` finds no memory.
#[derive(Drop)]
struct Counter {
    kind: Kind,
    runs: u64,
    failing: u64,
}

impl Work for Counter {
    type Value = u128;

    ghost use Rattle.std.specs.Prelude.{◌≡◌, ◌∷◌, [], Option, Some};
    ghost use Rattle.wc_model.specs.Workspace.Kinds.{eleven_kinds};
    ghost use Rattle.wc_model.specs.declared.values.Outcome.TheVariants.{Bound};

    ghost kind_of = { λ w. w.kind };

    ghost runs_of = { λ w. w.runs };

    ghost described = { eleven_kinds };

    ghost is_feature = { λ _ _ _ _. Unit {0} };

    ghost outcome_of = { λ v. Some (Bound v) };

    ghost chain = { λ _ _ _. Unit {0} };

    fn kind(&self) -> Kind {
        self.kind
    }

    fn runs(&self) -> u64 {
        self.runs
    }

    fn run(
        &mut self,
        alloc: Global,
        job: &Job,
        _given: &Given<u128>,
    ) -> Result<Arc<u128>, AllocError> {
        self.runs += 1;
        if self.runs == self.failing {
            return Err(AllocError);
        }
        Ok(Arc::new(alloc, job.inputs.hardware.cycles.alu as u128)?)
    }

    fn outcome(value: &u128) -> Option<Outcome>
        ensures { result ≡ Some (Outcome.Bound value.now) }
    {
        Some(Outcome::Bound(*value))
    }

    ghost stable = { λ _ _ _ _ _ _ f. f };

    ghost tells = { λ _ _ _ _. tt };
}

fn kind(number: u8) -> Result<Kind, AllocError>
    ensures { IfOk result (λ k. k ≡ number) }
{
    match Kind::new(number) {
        Some(kind) => Ok(kind),
        None => Err(AllocError),
    }
}

fn kinds_of(alloc: Global, numbers: &[u8]) -> Result<Vec<Kind>, AllocError>
    ensures { IfOk result (λ ks. ks.items ≡ numbers.now) }
{
    let mut kinds = Vec::new(alloc);
    for number in numbers {
        kinds.push(kind(*number)?)?;
    }
    Ok(kinds)
}

fn described(
    alloc: Global,
    number: u8,
    required: &[u8],
    reads: &[Part],
) -> Result<Describe, AllocError>
    ensures { IfOk result (λ d. d ≡ describe number required.now reads.now) }
{
    let mut parts = Vec::new(alloc);
    parts.extend_from_slice(reads)?;
    Ok(Describe {
        provides: kind(number)?,
        requires_: Table::new(kinds_of(alloc, required)?),
        reads: Table::new(parts),
    })
}

// Adds a kind with what it requires and what it reads.
fn add_kind(
    list: &mut Vec<Describe>,
    number: u8,
    required: &[u8],
    reads: &[Part],
) -> Result<(), AllocError>
    ensures { IfOk result (λ _. list.new.items ≡ list.old.items ++ describe number required.now reads.now ∷ []) }
{
    let alloc = *list.allocator();
    list.push(described(alloc, number, required, reads)?)?;
    Ok(())
}

fn eleven(alloc: Global) -> Result<Vec<Describe>, AllocError>
    ensures { IfOk result (λ ds. ds.items ≡ eleven_kinds) }
{
    let mut list = Vec::new(alloc);
    add_kind(&mut list, 1, &[], &[Part::Steer])?;
    add_kind(&mut list, 2, &[1], &[])?;
    add_kind(&mut list, 3, &[1, 2], &[Part::Loops])?;
    add_kind(&mut list, 4, &[1], &[Part::Cache])?;
    add_kind(&mut list, 5, &[1, 4], &[Part::Cache])?;
    add_kind(&mut list, 6, &[1, 4], &[Part::Cache])?;
    add_kind(&mut list, 7, &[1, 4, 5, 6], &[])?;
    add_kind(&mut list, 8, &[1, 7], &[Part::Cycles])?;
    add_kind(&mut list, 9, &[1, 2, 3, 8], &[Part::Limits])?;
    add_kind(&mut list, 10, &[1, 2, 9], &[])?;
    add_kind(&mut list, 11, &[9, 10], &[])?;
    Ok(list)
}

// A work for each number, of the kind with that number. The first run of those of the kind `failing` finds no memory.
fn works_of(alloc: Global, numbers: &[u8], failing: u8) -> Result<Vec<Counter>, AllocError>
    ensures kinds { IfOk result (λ ws. map (λ w. w.kind) ws.items ≡ numbers.now) }
    ensures runs { IfOk result (λ ws. All (λ w. w.runs ≡ 0) ws.items) }
{
    let mut works = Vec::new(alloc);
    for number in numbers {
        works.push(Counter {
            kind: kind(*number)?,
            runs: 0,
            failing: (*number == failing) as u64,
        })?;
    }
    Ok(works)
}

fn loop_bound(alloc: Global, at: u32, bound: u32) -> Fact {
    Fact::Loop {
        at,
        bound: Some(bound),
        within: Table::new(Vec::new(alloc)),
    }
}

// A core with a work for each number, and with one loop bound, which is edit 2.
fn stage_with(
    alloc: Global,
    numbers: &[u8],
    failing: u8,
    sessions: u32,
) -> Result<Stage, AllocError>
    requires staffed { IsStaffed eleven_kinds numbers.now }
    requires sessions { (1 ≤ sessions) × (sessions ≤ 64) }
{
    let Ok(registry) = Registry::new(alloc, eleven(alloc)?) else {
        return Err(AllocError);
    };
    let image = Image {
        bytes: Table::new(Vec::new(alloc)),
        ranges: Table::new(Vec::new(alloc)),
        names: Table::new(Vec::new(alloc)),
    };
    let mut facts = Vec::new(alloc);
    facts.push(loop_bound(alloc, 0x8004, 9))?;
    let core = Core::new(
        alloc,
        Arc::new(alloc, image)?,
        registry,
        works_of(alloc, numbers, failing)?,
        default_hardware(),
        facts,
        sessions,
    )?;
    Stage::new(alloc, core, sessions)
}

// One work of each kind, of which the first run of the kind `failing` finds no memory.
fn stage_failing(alloc: Global, failing: u8, sessions: u32) -> Result<Stage, AllocError>
    requires { (1 ≤ sessions) × (sessions ≤ 64) }
{
    let numbers = [1, 2, 3, 4, 5, 6, 7, 8, 9, 10, 11];
    stage_with(alloc, &numbers, failing, sessions)
}

fn stage_of(alloc: Global, sessions: u32) -> Result<Stage, AllocError>
    requires { (1 ≤ sessions) × (sessions ≤ 64) }
{
    stage_failing(alloc, 0, sessions)
}

// Two works of each kind.
fn stage_of_twice(alloc: Global, sessions: u32) -> Result<Stage, AllocError>
    requires { (1 ≤ sessions) × (sessions ≤ 64) }
{
    let numbers = [
        1, 2, 3, 4, 5, 6, 7, 8, 9, 10, 11, 1, 2, 3, 4, 5, 6, 7, 8, 9, 10, 11,
    ];
    stage_with(alloc, &numbers, 0, sessions)
}

// The kinds that the entries from a place on start, in order.
fn starts(alloc: Global, history: &[Entry], from: usize) -> Result<Vec<u8>, AllocError> {
    let mut kinds = Vec::new(alloc);
    for (place, entry) in history.iter().enumerate() {
        if from <= place {
            if let Entry::Start { kind, .. } = entry {
                kinds.push(kind.number())?;
            }
        }
    }
    Ok(kinds)
}

// The kinds whose runs were dropped, in order.
fn drops(alloc: Global, history: &[Entry]) -> Result<Vec<u8>, AllocError> {
    let mut kinds = Vec::new(alloc);
    for entry in history {
        if let Entry::Finish { kind, end, .. } = entry {
            if *end == End::Dropped {
                kinds.push(kind.number())?;
            }
        }
    }
    Ok(kinds)
}

const ALL: [u8; 11] = [1, 2, 3, 4, 5, 6, 7, 8, 9, 10, 11];

// Whether the entries from a place on start these kinds and no other, in order.
fn have_started(
    alloc: Global,
    stage: &Stage,
    from: usize,
    kinds: &[u8],
) -> Result<bool, AllocError> {
    Ok(starts(alloc, stage.history(), from)?.as_slice() == kinds)
}

fn is_answer(asked: Asked, at: u64, outcome: Outcome) -> bool {
    asked.at == at && asked.outcome == outcome
}

// An edit of the cycles.
fn slower() -> Edit {
    let Hardware { mut cycles, cache } = default_hardware();
    cycles.alu = 2;
    Edit::Hardware(Hardware { cycles, cache })
}
