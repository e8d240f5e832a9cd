ghost use Rattle.std.specs.Prelude.{◌≡◌, ◌≤◌};
ghost use Rattle.wc_flight.specs.Calls.{IsReady};

use super::*;
use std::marker::Brand;
use std::sync::Wait;
use std::test::Fail;
use wc_pass::Pass;

// The second session lists, learns what the first one's ask left, and lists again. How many entries it learned of.
fn learned<R: Wait, N: Named>(
    rt: &R,
    alloc: Global,
    workspace: &Workspace<N, Small>,
    first: &mut Pass,
    second: &mut Pass,
) -> Result<u64, AllocError>
    requires { IsReady N.desk N.opening first.old × IsReady N.desk N.opening second.old }
{
    workspace.list(rt, second)?;
    workspace.ask(rt, alloc, first, b"f")?;
    let note = first.note(workspace.desk());
    let count = second.learn(workspace.desk(), note);
    workspace.list(rt, second)?;
    Ok(count)
}

fn told<R: Wait, N: Named>(
    rt: &R,
    alloc: Global,
    prepared: Prepared<Small>,
) -> Result<u64, AllocError>
    requires { (prepared.desk ≡ N.desk) × (prepared.opening ≡ N.opening) }
{
    let (workspace, mut passes) = Workspace::<N, Small>::new(prepared);
    let (Some(mut second), Some(mut first)) = (passes.pop(), passes.pop()) else {
        return Err(AllocError);
    };
    learned(rt, alloc, &workspace, &mut first, &mut second)
}

fn noted<R: Wait>(rt: &R, alloc: Global) -> Result<u64, AllocError> {
    let stage = Arc::new(alloc, Stage::new(Scene::Many, 1, 1))?;
    let prepared = opened(alloc, &stage, 2)?;
    told::<R, Brand>(rt, alloc, prepared)
}

#[test]
fn a_session_learns_by_a_note(rt: HostRuntime) -> Result<(), Fail> {
    // the opening edit, a list, a pin, eleven runs with a start and an end each, an answer
    assert_eq!(rt; noted(&rt, rt.alloc())?, 26);
    Ok(())
}
