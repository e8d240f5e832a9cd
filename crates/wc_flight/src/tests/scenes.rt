ghost use Rattle.std.specs.Prelude.{◌≡◌, ◌≤◌, All};
ghost use Rattle.wc_flight.specs.Calls.{IsReady, StaysReady};
ghost use Rattle.wc_flight.specs.Openings.{AllStay};

use super::*;
use std::marker::Brand;
use std::sync::Wait;
use std::test::Fail;
use std::thread::Threads;
use wc_model::{Edit, End, Entry, Hardware};
use wc_pass::Pass;

fn timing(alu: u16) -> Hardware {
    let Hardware { mut cycles, cache } = default_hardware();
    cycles.alu = alu;
    Hardware { cycles, cache }
}

// The first session asks, and the others once its run has begun.
fn follow<R: Wait, N: Named>(
    rt: &R,
    alloc: Global,
    workspace: &Workspace<N, Small>,
    stage: &Stage,
    pass: &mut Pass,
)
    requires { IsReady N.desk N.opening pass.old }
    ensures ready { IsReady N.desk N.opening pass.new }
    ensures session { pass.new.session ≡ pass.old.session }
{
    if pass.session() != stage.first {
        stage.wait(&stage.began, 1);
        stage.ready.fetch_add(1, Ordering::SeqCst);
    }
    let _ = workspace.ask(rt, alloc, pass, b"f");
}

// The first session asks twice. The other edits while the first run is out.
fn edit_between<R: Wait, N: Named>(
    rt: &R,
    alloc: Global,
    workspace: &Workspace<N, Small>,
    stage: &Stage,
    pass: &mut Pass,
)
    requires { IsReady N.desk N.opening pass.old }
    ensures ready { IsReady N.desk N.opening pass.new }
    ensures session { pass.new.session ≡ pass.old.session }
{
    if pass.session() == stage.first {
        let _ = workspace.ask(rt, alloc, pass, b"f");
        let _ = workspace.ask(rt, alloc, pass, b"f");
    } else {
        stage.wait(&stage.began, 1);
        let _ = workspace.edit(rt, pass, Edit::Hardware(timing(2)));
        stage.ready.fetch_add(1, Ordering::SeqCst);
    }
}

fn call<R: Wait, N: Named>(
    rt: &R,
    alloc: Global,
    workspace: &Workspace<N, Small>,
    turn: u32,
    pass: &mut Pass,
)
    requires { IsReady N.desk N.opening pass.old }
    ensures ready { IsReady N.desk N.opening pass.new }
    ensures session { pass.new.session ≡ pass.old.session }
{
    match turn % 5 {
        0 => drop(workspace.edit(rt, pass, Edit::Hardware(timing((turn % 3) as u16 + 1)))),
        1 => drop(workspace.list(rt, pass)),
        2 => drop(workspace.edit(rt, pass, Edit::Drop(99_999))),
        3 => drop(workspace.ask(rt, alloc, pass, b"f")),
        _ => drop(workspace.ask(rt, alloc, pass, b"g")),
    }
}

fn many<R: Wait, N: Named>(rt: &R, alloc: Global, workspace: &Workspace<N, Small>, pass: &mut Pass)
    requires { IsReady N.desk N.opening pass.old }
    ensures ready { IsReady N.desk N.opening pass.new }
    ensures session { pass.new.session ≡ pass.old.session }
{
    for turn in 0..100 {
        call(rt, alloc, workspace, turn, pass);
    }
}

fn act<R: Wait, N: Named>(
    rt: &R,
    alloc: Global,
    workspace: &Workspace<N, Small>,
    stage: &Stage,
    pass: &mut Pass,
)
    requires { IsReady N.desk N.opening pass.old }
    ensures ready { IsReady N.desk N.opening pass.new }
    ensures session { pass.new.session ≡ pass.old.session }
{
    match stage.scene {
        Scene::OneRun | Scene::NoMemory => follow(rt, alloc, workspace, stage, pass),
        Scene::Edits => edit_between(rt, alloc, workspace, stage, pass),
        Scene::TwoRuns if pass.session() == stage.first => {
            drop(workspace.ask(rt, alloc, pass, b"x"));
        }
        Scene::TwoRuns => drop(workspace.ask(rt, alloc, pass, b"y")),
        Scene::Many => many(rt, alloc, workspace, pass),
    }
}

// Each session in a thread of its own.
fn act_all<R: Threads + Wait + Sync, N: Named + Send + Sync>(
    rt: &R,
    alloc: Global,
    workspace: &Workspace<N, Small>,
    stage: &Stage,
    passes: &mut [Pass],
)
    requires { All (IsReady N.desk N.opening) passes.old }
    ensures { AllStay N.desk N.opening passes.old passes.new }
{
    let threads = passes.len().max(1);
    thread::for_each_mut(
        rt,
        passes,
        threads,
        &|_, pass: &mut Pass|
            requires { IsReady N.desk N.opening pass.now }
            ensures { StaysReady N.desk N.opening pass.entry.now pass.exit.now }
        { act(rt, alloc, workspace, stage, pass) },
    );
}

fn play<R: Threads + Wait + Sync, N: Named + Send + Sync>(
    rt: &R,
    alloc: Global,
    prepared: Prepared<Small>,
    stage: &Stage,
) -> Closed<Small>
    requires { (prepared.desk ≡ N.desk) × (prepared.opening ≡ N.opening) }
{
    let (workspace, mut passes) = Workspace::<N, Small>::new(prepared);
    act_all(rt, alloc, &workspace, stage, passes.as_mut_slice());
    workspace.close(passes)
}

pub(crate) fn played<R: Threads + Wait + Sync>(
    rt: &R,
    alloc: Global,
    scene: Scene,
    first: u32,
    sessions: u32,
) -> Result<Closed<Small>, AllocError>
    requires { (1 ≤ sessions) × (sessions ≤ 64) }
{
    let stage = Arc::new(alloc, Stage::new(scene, first, sessions as u64 - 1))?;
    let prepared = opened(alloc, &stage, sessions)?;
    let closed = play::<R, Brand>(rt, alloc, prepared, &stage);
    if stage.late.load(Ordering::SeqCst) > 0 {
        return Err(AllocError);
    }
    Ok(closed)
}

fn starts(history: &[Entry], wanted: u8) -> usize {
    history
        .iter()
        .filter(|entry| matches!(entry, Entry::Start { kind, .. } if kind.number() == wanted))
        .count()
}

fn answers(history: &[Entry], wanted: Outcome) -> usize {
    history
        .iter()
        .filter(|entry| matches!(entry, Entry::Answer { outcome, .. } if *outcome == wanted))
        .count()
}

fn end_of(entry: &Entry, wanted: u8) -> Option<End> {
    match entry {
        Entry::Finish { kind, end, .. } if kind.number() == wanted => Some(*end),
        _ => None,
    }
}

fn ends(history: &[Entry], wanted: u8, how: End) -> usize {
    history
        .iter()
        .filter(|entry| end_of(entry, wanted) == Some(how))
        .count()
}

// How the first run of a kind ended.
fn first_end(history: &[Entry], wanted: u8) -> Option<End> {
    for entry in history {
        let end = end_of(entry, wanted);
        if end.is_some() {
            return end;
        }
    }
    None
}

#[test]
fn sessions_that_ask_at_once_share_one_run(rt: HostRuntime) -> Result<(), Fail> {
    // the others wait for the first one's run, and each is woken
    let closed = played(&rt, rt.alloc(), Scene::OneRun, 2, 4)?;
    let history = closed.history.as_slice();
    assert_eq!(rt; starts(history, 1), 1);
    assert_eq!(rt; starts(history, 11), 1);
    assert_eq!(rt; answers(history, Outcome::Bound(1)), 4);
    assert_eq!(rt; closed.works.len(), 22);
    Ok(())
}

#[test]
fn a_run_without_memory_is_made_again_by_another_ask(rt: HostRuntime) -> Result<(), Fail> {
    for first in 1..3 {
        let closed = played(&rt, rt.alloc(), Scene::NoMemory, first, 2)?;
        let history = closed.history.as_slice();
        assert_eq!(rt; answers(history, Outcome::Memory), 1);
        assert_eq!(rt; answers(history, Outcome::Bound(1)), 1);
        assert_eq!(rt; starts(history, 1), 2);
        assert_eq!(rt; first_end(history, 1), Some(End::Memory));
        assert_eq!(rt; ends(history, 1, End::Memory), 1);
        assert_eq!(rt; closed.works.len(), 11);
    }
    Ok(())
}

#[test]
fn an_edit_during_a_run_drops_what_it_touches(rt: HostRuntime) -> Result<(), Fail> {
    let closed = played(&rt, rt.alloc(), Scene::Edits, 1, 2)?;
    let history = closed.history.as_slice();
    assert_eq!(rt; answers(history, Outcome::Bound(1)), 1);
    assert_eq!(rt; answers(history, Outcome::Bound(2)), 1);
    assert_eq!(rt; (ends(history, 1, End::Kept), starts(history, 1)), (1, 1));
    assert_eq!(rt;
        (
            ends(history, 11, End::Dropped),
            ends(history, 11, End::Kept)
        ),
        (1, 1)
    );
    Ok(())
}

#[test]
fn two_works_of_a_kind_run_at_once(rt: HostRuntime) -> Result<(), Fail> {
    let closed = played(&rt, rt.alloc(), Scene::TwoRuns, 1, 2)?;
    let history = closed.history.as_slice();
    assert_eq!(rt; answers(history, Outcome::Bound(1)), 2);
    assert_eq!(rt; ends(history, 1, End::Kept), 2);
    Ok(())
}

fn shares<T: Sync>() {}

fn shared<N: Named + Send + Sync>() {
    shares::<Workspace<N, Small>>();
}

#[test]
fn a_workspace_may_be_shared(_rt: HostRuntime) {
    shared::<Brand>();
}
