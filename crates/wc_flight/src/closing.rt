ghost use Rattle.std.specs.Prelude.{◌≡◌, All};
ghost use Rattle.wc_flight.specs.Closing.{AreBack, IsWhole};
ghost use Rattle.wc_flight.specs.Openings.{AreAll};
ghost use Rattle.wc_model.specs.Workspace.History.{IsLegal};

use crate::locked::Locked;
use crate::{Named, Workspace};
use wc_core::Work;
use wc_model::Entry;
use wc_pass::{Desk, Pass, Pen};

/// What a workspace leaves: its whole history and all works.
#[derive(Drop)]
pub struct Closed<W> {
    pub history: Vec<Entry>,
    pub works: Vec<W>,
}

// Shows each pass what is published: beyond what it had seen no entry of its session stands.
fn show_to(pen: &mut Pen, desk: &Desk, passes: Vec<Pass>)
    requires { (pen.old.desk ≡ desk.now) × All (λ p. p.desk ≡ desk.now) passes.items }
    ensures same { pen.new ≡ pen.old }
    ensures whole { All (IsWhole pen.old.seen) passes.items }
{
    for mut pass in passes {
        pen.meet(desk, &mut pass);
    }
}

impl<N: Named, W: Work> Locked<N, W> {
    fn close(self, desk: &Desk, passes: Vec<Pass>) -> Closed<W>
        requires desk { desk.now ≡ N.desk }
        requires passes { AreAll N.desk N.opening passes.items }
        ensures legal { IsLegal W.chain N.opening result.history.items }
        ensures whole { All (IsWhole result.history.items) passes.items }
        ensures works { AreBack W.kind_of W.runs_of N.opening result.history.items result.works.items }
    {
        let Locked {
            core,
            mut pen,
            of: _,
        } = self;
        show_to(&mut pen, desk, passes);
        let (history, works) = core.close();
        Closed { history, works }
    }
}

impl<N: Named, W: Work + Send> Workspace<N, W> {
    /// The whole history and all works, once no session has an open ask. It takes no memory.
    pub fn close(self, passes: Vec<Pass>) -> Closed<W>
        requires { AreAll N.desk N.opening passes.items }
        // What each pass has seen begins the history, and has all entries of its session.
        ensures legal { IsLegal W.chain N.opening result.history.items }
        ensures whole { All (IsWhole result.history.items) passes.items }
        ensures works { AreBack W.kind_of W.runs_of N.opening result.history.items result.works.items }
    {
        let Workspace {
            locked,
            given: _,
            desk,
        } = self;
        locked.into_inner().close(&desk, passes)
    }
}
