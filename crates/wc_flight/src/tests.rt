ghost use Rattle.std.specs.Prelude.{◌≡◌, ◌≤◌, Some, IfOk, All, map};
ghost use Rattle.wc_core.specs.Openings.{IsStaffed};
ghost use Rattle.wc_model.specs.Workspace.Kinds.{describe, eleven_kinds};

mod crowd;
mod notes;
mod replay;
mod scenes;

use super::*;
use std::alloc::{AllocError, Global};
use std::sync::Arc;
use std::sync::atomic::{AtomicU64, Ordering};
use std::thread;
use wc_core::{Given, Job, Work};
use wc_model::{Describe, Image, Kind, Outcome, Part, Table, default_hardware};
use wc_registry::Registry;

// How often a thread looks for another one's flag before it gives up, and the test fails.
const LOOKS: u64 = 1_000_000_000;

/// What the sessions of a test do.
#[derive(Clone, Copy, PartialEq, Eq)]
enum Scene {
    OneRun,
    NoMemory,
    Edits,
    TwoRuns,
    Many,
}

// What the threads of a test tell each other: how many runs of the first kind began, how many sessions are
// ready, and how many waits ended without what they waited for.
#[derive(Drop)]
struct Stage {
    scene: Scene,
    first: u32,
    others: u64,
    began: AtomicU64,
    ready: AtomicU64,
    late: AtomicU64,
}

impl Stage {
    fn new(scene: Scene, first: u32, others: u64) -> Stage {
        Stage {
            scene,
            first,
            others,
            began: AtomicU64::new(0),
            ready: AtomicU64::new(0),
            late: AtomicU64::new(0),
        }
    }

    // Waits until a word has come so far.
    fn wait(&self, word: &AtomicU64, least: u64) {
        for _look in 0..LOOKS {
            if word.load(Ordering::SeqCst) >= least {
                return;
            }
            thread::yield_now();
        }
        self.late.fetch_add(1, Ordering::SeqCst);
    }

    // A run of the first kind begins; whether it finds memory.
    fn begin(&self) -> bool {
        let before = self.began.fetch_add(1, Ordering::SeqCst);
        match self.scene {
            Scene::Many => {}
            Scene::TwoRuns => self.wait(&self.began, 2),
            Scene::OneRun | Scene::NoMemory | Scene::Edits if before > 0 => {}
            Scene::OneRun | Scene::NoMemory | Scene::Edits => self.wait(&self.ready, self.others),
        }
        self.scene != Scene::NoMemory || before > 0
    }
}

// A work whose value tells the cycles of `alu`.
#[derive(Drop)]
struct Small {
    kind: Kind,
    runs: u64,
    stage: Arc<Stage>,
}

impl Work for Small {
    type Value = u128;

    ghost use Rattle.std.specs.Prelude.{◌≡◌, ◌∷◌, [], Option, Some};
    ghost use Rattle.wc_model.specs.Workspace.Kinds.{eleven_kinds};
    ghost use Rattle.wc_model.specs.declared.values.Outcome.TheVariants.{Bound};

    ghost kind_of = { λ w. w.kind };

    ghost runs_of = { λ w. w.runs };

    ghost described = { eleven_kinds };

    ghost is_feature = { λ _ _ _ _. Unit {0} };

    ghost outcome_of = { λ v. Some (Bound v) };

    ghost chain = { λ _ _ _. Unit {0} };

    fn kind(&self) -> Kind {
        self.kind
    }

    fn runs(&self) -> u64 {
        self.runs
    }

    fn run(
        &mut self,
        alloc: Global,
        job: &Job,
        _given: &Given<u128>,
    ) -> Result<Arc<u128>, AllocError> {
        self.runs += 1;
        if self.kind.number() == 1 && !self.stage.begin() {
            return Err(AllocError);
        }
        Ok(Arc::new(alloc, job.inputs.hardware.cycles.alu as u128)?)
    }

    fn outcome(value: &u128) -> Option<Outcome>
        ensures { result ≡ Some (Outcome.Bound value.now) }
    {
        Some(Outcome::Bound(*value))
    }

    ghost stable = { λ _ _ _ _ _ _ f. f };

    ghost tells = { λ _ _ _ _. tt };
}

fn kind(number: u8) -> Result<Kind, AllocError>
    ensures { IfOk result (λ k. k ≡ number) }
{
    match Kind::new(number) {
        Some(kind) => Ok(kind),
        None => Err(AllocError),
    }
}

fn kinds_of(alloc: Global, numbers: &[u8]) -> Result<Vec<Kind>, AllocError>
    ensures { IfOk result (λ ks. ks.items ≡ numbers.now) }
{
    let mut kinds = Vec::new(alloc);
    for number in numbers {
        kinds.push(kind(*number)?)?;
    }
    Ok(kinds)
}

fn described(
    alloc: Global,
    number: u8,
    required: &[u8],
    reads: &[Part],
) -> Result<Describe, AllocError>
    ensures { IfOk result (λ d. d ≡ describe number required.now reads.now) }
{
    let mut parts = Vec::new(alloc);
    parts.extend_from_slice(reads)?;
    Ok(Describe {
        provides: kind(number)?,
        requires_: Table::new(kinds_of(alloc, required)?),
        reads: Table::new(parts),
    })
}

fn eleven(alloc: Global) -> Result<Vec<Describe>, AllocError>
    ensures { IfOk result (λ ds. ds.items ≡ eleven_kinds) }
{
    let mut list = Vec::new(alloc);
    list.push(described(alloc, 1, &[], &[Part::Steer])?)?;
    list.push(described(alloc, 2, &[1], &[])?)?;
    list.push(described(alloc, 3, &[1, 2], &[Part::Loops])?)?;
    list.push(described(alloc, 4, &[1], &[Part::Cache])?)?;
    list.push(described(alloc, 5, &[1, 4], &[Part::Cache])?)?;
    list.push(described(alloc, 6, &[1, 4], &[Part::Cache])?)?;
    list.push(described(alloc, 7, &[1, 4, 5, 6], &[])?)?;
    list.push(described(alloc, 8, &[1, 7], &[Part::Cycles])?)?;
    list.push(described(alloc, 9, &[1, 2, 3, 8], &[Part::Limits])?)?;
    list.push(described(alloc, 10, &[1, 2, 9], &[])?)?;
    list.push(described(alloc, 11, &[9, 10], &[])?)?;
    Ok(list)
}

// A work for each number, of the kind with that number.
fn works_of(alloc: Global, stage: &Arc<Stage>, numbers: &[u8]) -> Result<Vec<Small>, AllocError>
    ensures kinds { IfOk result (λ ws. map (λ w. w.kind) ws.items ≡ numbers.now) }
    ensures runs { IfOk result (λ ws. All (λ w. w.runs ≡ 0) ws.items) }
{
    let mut works = Vec::new(alloc);
    for number in numbers {
        works.push(Small {
            kind: kind(*number)?,
            runs: 0,
            stage: Arc::try_clone(stage)?,
        })?;
    }
    Ok(works)
}

fn opened_with(
    alloc: Global,
    stage: &Arc<Stage>,
    numbers: &[u8],
    sessions: u32,
) -> Result<Prepared<Small>, AllocError>
    requires staffed { IsStaffed eleven_kinds numbers.now }
    requires sessions { (1 ≤ sessions) × (sessions ≤ 64) }
{
    let Ok(registry) = Registry::new(alloc, eleven(alloc)?) else {
        return Err(AllocError);
    };
    let image = Image {
        bytes: Table::new(Vec::new(alloc)),
        ranges: Table::new(Vec::new(alloc)),
        names: Table::new(Vec::new(alloc)),
    };
    prepare(
        alloc,
        Arc::new(alloc, image)?,
        registry,
        works_of(alloc, stage, numbers)?,
        default_hardware(),
        Vec::new(alloc),
        sessions,
    )
}

// With two works of each kind, or one where the first run finds no memory.
fn opened(alloc: Global, stage: &Arc<Stage>, sessions: u32) -> Result<Prepared<Small>, AllocError>
    requires { (1 ≤ sessions) × (sessions ≤ 64) }
{
    if stage.scene == Scene::NoMemory {
        return opened_with(alloc, stage, &[1, 2, 3, 4, 5, 6, 7, 8, 9, 10, 11], sessions);
    }
    opened_with(
        alloc,
        stage,
        &[
            1, 2, 3, 4, 5, 6, 7, 8, 9, 10, 11, 1, 2, 3, 4, 5, 6, 7, 8, 9, 10, 11,
        ],
        sessions,
    )
}
