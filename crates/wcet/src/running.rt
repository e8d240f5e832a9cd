//! One session over a core of its own.
ghost use Rattle.std.specs.Prelude.{◌≡◌, ◌≤◌, ◌∷◌, [], false, map, option_map, All, IfOk, IfErr};
ghost use Rattle.wc_core.specs.Answers.{AreRuns, LeavesFree, RunsNothing};
ghost use Rattle.wc_io.specs.Causes.{Rose};
ghost use Rattle.wc_io.specs.Lines.{lines_of};
ghost use Rattle.wc_model.specs.Workspace.History.{IsLegal, opening_entries};
ghost use Rattle.wc_model.specs.Workspace.Chain.{chain};
ghost use Rattle.wc_session.specs.Alone.{IsAlone};
ghost use Rattle.wcet.specs.BoundAlone.{bound_alone};
ghost use Rattle.wc_report.specs.ReportText.{IsOfKinds};
ghost use Rattle.wcet.specs.Session.{IsRun, opening_of};
ghost use Rattle.wcet.specs.Starts.{all_starts, bound_runs};

use crate::loading::Loaded;
use crate::work::{ChainWork, bound_registry};
use std::alloc::{AllocError, Global};
use std::sync::{Arc, Wait};
use std::thread::Threads;
use wc_core::{Core, Work};
use wc_io::{Lines, Sink, Source};
use wc_model::{Ended, Entry, Image};
use wc_session::{SessionEnd, session};

/// What a session left: the history, the runs of its work, and what it gave back.
#[derive(Drop)]
pub struct Ran<S: Source + Drop, K: Sink + Drop> {
    pub history: Vec<Entry>,
    pub runs: u64,
    pub ended: Ended,
    pub source: S,
    pub sink: K,
}

// A core over the loaded inputs, for one session.
fn core_over<W: Work>(
    alloc: Global,
    loaded: Loaded,
    works: Vec<W>,
) -> Result<(Core<W>, Arc<Image>), AllocError>
    requires described { W.described ≡ bound_alone ∷ [] }
    requires kinds { map W.kind_of works.items ≡ 11 ∷ [] }
    requires runs { All (λ w. W.runs_of w ≡ 0) works.items }
    ensures image { IfOk result (λ r. r.1.value ≡ loaded.image) }
    ensures opening { IfOk result (λ r. r.0.opening ≡ opening_of loaded) }
    ensures history { IfOk result (λ r. r.0.history ≡ opening_entries r.0.opening) }
    ensures legal { IfOk result (λ r. IsLegal W.chain r.0.opening r.0.history) }
    ensures free { IfOk result (λ r. LeavesFree r.0.opening r.0.history 1) }
    ensures alone { IfOk result (λ r. IsAlone r.0.opening) }
{
    let Loaded {
        image,
        hardware,
        facts,
    } = loaded;
    let image = Arc::new(alloc, image)?;
    let shared = Arc::try_clone(&image)?;
    let registry = bound_registry(alloc)?;
    let core = Core::new(alloc, shared, registry, works, hardware, facts, 1)?;
    Ok((core, image))
}

// Runs the session to its end.
fn run_core<R: Wait, W: Work + Send, S: Source + Drop, K: Sink + Drop>(
    rt: &R,
    alloc: Global,
    mut core: Core<W>,
    image: &Image,
    lines: Lines<S>,
    sink: K,
) -> Ran<S, K>
    requires image { core.opening.image ≡ image.now }
    requires history { core.history ≡ opening_entries core.opening }
    requires legal { IsLegal W.chain core.opening core.history }
    requires free { LeavesFree core.opening core.history 1 }
    requires alone { IsAlone core.opening }
    requires works { core.opening.works ≡ (11, 1) ∷ [] }
    requires unread { lines.ended ≡ false }
    ensures run { IsRun W.chain core.opening lines.rest (K.held sink) (K.held result.sink) result.history.items result.ended }
    ensures rests { RunsNothing core.opening result.history.items }
    ensures runs { AreRuns core.opening result.history.items ((11, result.runs) ∷ []) }
    ensures source { (S.place result.source ≡ lines.place) × (lines.faults ≤ S.faults result.source) }
    ensures sink { (K.place result.sink ≡ K.place sink) × (K.faults sink ≤ K.faults result.sink) }
    ensures read_fault { result.ended ≡ Ended.ReadFault → Rose lines.faults (S.faults result.source) }
    ensures write_fault { result.ended ≡ Ended.WriteFault → Rose (K.faults sink) (K.faults result.sink) }
{
    let SessionEnd {
        source,
        sink,
        ended,
    } = session(rt, alloc, &mut core, image, lines, sink);
    let (history, works) = core.close();
    Ran {
        history,
        runs: works[0].runs(),
        ended,
        source,
        sink,
    }
}

/// One session over the loaded inputs. Where there is no memory to begin, the source and the sink come back as they were.
pub fn run_session<R: Wait, W: Work + Send, S: Source + Drop, K: Sink + Drop>(
    rt: &R,
    alloc: Global,
    loaded: Loaded,
    works: Vec<W>,
    source: S,
    sink: K,
) -> Result<Ran<S, K>, (S, K)>
    requires described { W.described ≡ bound_alone ∷ [] }
    requires kinds { map W.kind_of works.items ≡ 11 ∷ [] }
    requires runs { All (λ w. W.runs_of w ≡ 0) works.items }
    ensures back { IfErr result (λ e. (e.0 ≡ source) × (e.1 ≡ sink)) }
    ensures run { IfOk result (λ r. IsRun W.chain (opening_of loaded) (option_map lines_of (S.left source)) (K.held sink) (K.held r.sink) r.history.items r.ended) }
    ensures rests { IfOk result (λ r. RunsNothing (opening_of loaded) r.history.items) }
    ensures runs { IfOk result (λ r. AreRuns (opening_of loaded) r.history.items ((11, r.runs) ∷ [])) }
    ensures source { IfOk result (λ r. (S.place r.source ≡ S.place source) × (S.faults source ≤ S.faults r.source)) }
    ensures sink { IfOk result (λ r. (K.place r.sink ≡ K.place sink) × (K.faults sink ≤ K.faults r.sink)) }
    ensures read_fault { IfOk result (λ r. r.ended ≡ Ended.ReadFault → Rose (S.faults source) (S.faults r.source)) }
    ensures write_fault { IfOk result (λ r. r.ended ≡ Ended.WriteFault → Rose (K.faults sink) (K.faults r.sink)) }
{
    let (core, image) = match core_over(alloc, loaded, works) {
        Ok(both) => both,
        Err(AllocError) => return Err((source, sink)),
    };
    match Lines::new(alloc, source) {
        Ok(lines) => Ok(run_core(rt, alloc, core, &image, lines, sink)),
        Err((source, AllocError)) => Err((source, sink)),
    }
}

/// The session by the shipped work, whose runs are the starts of the bound.
pub fn run_shipped<R: Threads + Wait + Sync, S: Source + Drop, K: Sink + Drop>(
    rt: &R,
    alloc: Global,
    loaded: Loaded,
    source: S,
    sink: K,
) -> Result<Ran<S, K>, (S, K)>
    ensures back { IfErr result (λ e. (e.0 ≡ source) × (e.1 ≡ sink)) }
    ensures run { IfOk result (λ r. IsRun chain (opening_of loaded) (option_map lines_of (S.left source)) (K.held sink) (K.held r.sink) r.history.items r.ended) }
    ensures runs { IfOk result (λ r. bound_runs r.runs ≡ all_starts r.history.items) }
    ensures kinds { IfOk result (λ r. All IsOfKinds r.history.items) }
    ensures source { IfOk result (λ r. (S.place r.source ≡ S.place source) × (S.faults source ≤ S.faults r.source)) }
    ensures sink { IfOk result (λ r. (K.place r.sink ≡ K.place sink) × (K.faults sink ≤ K.faults r.sink)) }
    ensures read_fault { IfOk result (λ r. r.ended ≡ Ended.ReadFault → Rose (S.faults source) (S.faults r.source)) }
    ensures write_fault { IfOk result (λ r. r.ended ≡ Ended.WriteFault → Rose (K.faults sink) (K.faults r.sink)) }
{
    let mut works = Vec::new(alloc);
    let Ok(()) = works.push(ChainWork::new(rt)) else {
        return Err((source, sink));
    };
    match run_session(rt, alloc, loaded, works, source, sink) {
        Ok(ran) => Ok(ran),
        Err(back) => Err(back),
    }
}
