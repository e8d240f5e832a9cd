ghost use Rattle.std.specs.Prelude.{◌≡◌, []};
ghost use Rattle.wc_flight.specs.Calls.{Gains, IsReady, ListAnswers};
ghost use Rattle.wc_flight.specs.Inner.Holds.{IsNew, KeepsOwn};
ghost use Rattle.wc_model.specs.Workspace.History.{IsLegal};

use crate::Named;
use std::alloc::AllocError;
use std::marker::{Model, PhantomData};
use wc_core::{Core, Work};
use wc_model::{Entry, Listing};
use wc_pass::{Desk, Pass, Pen};

/// What stands behind the lock. The core is opened as `N` names, the pen is of the desk that `N` names, and
/// the published list is the core's history.
#[derive(Drop)]
pub(crate) struct Locked<N: Named, W: Work> {
    pub(crate) core: Core<W>,
    pub(crate) pen: Pen,
    pub(crate) of: PhantomData<N>,
}

impl<N: Named, W: Work> Model for Locked<N, W> {
    ghost use Rattle.std.specs.Prelude.{List};
    ghost use Rattle.wc_flight.specs.Inner.Holds.{IsLocked};
    ghost use Rattle.wc_model.specs.declared.entries.Entry.{Entry};

    ghost Value = { List Entry };

    ghost view = { λ l. l.core.history };

    ghost invariant = { λ l. IsLocked W.chain N.desk N.opening l.core l.pen };
}

// Publishes the last entry of a history.
pub(crate) fn publish_last(pen: &mut Pen, desk: &Desk, pass: &mut Pass, history: &[Entry])
    requires desk { (pen.old.desk ≡ desk.now) × (pass.old.desk ≡ desk.now) }
    requires new { IsNew pen.old.seen history.now pass.old.session }
    ensures pen { pen.new ≡ record pen.old { seen = history.now } }
    ensures pass { pass.new ≡ record pass.old { seen = history.now } }
{
    pen.publish_for(desk, pass, &history[history.len() - 1]);
}

impl<N: Named, W: Work> Locked<N, W> {
    /// Shows the pass the whole history. What it and its ticket knew of its own session still holds.
    pub(crate) fn meet(&mut self, desk: &Desk, pass: &mut Pass)
        requires { (desk.now ≡ N.desk) × (pass.old.desk ≡ N.desk) }
        ensures same { self.new ≡ self.old }
        ensures gains { Gains pass.old pass.new [] }
        ensures seen { pass.new.seen ≡ self.new }
        ensures legal { IsLegal W.chain N.opening pass.new.seen }
        ensures keeps { KeepsOwn W.is_feature N.desk N.opening pass.old pass.new }
    {
        self.pen.meet(desk, pass);
    }

    pub(crate) fn list(&mut self, desk: &Desk, pass: &mut Pass) -> Result<Listing, AllocError>
        requires desk { desk.now ≡ N.desk }
        requires ready { IsReady N.desk N.opening pass.old }
        ensures ready { IsReady N.desk N.opening pass.new }
        ensures session { pass.new.session ≡ pass.old.session }
        ensures legal { IsLegal W.chain N.opening pass.new.seen }
        ensures answer { ListAnswers N.opening pass.old pass.new result }
    {
        self.meet(desk, pass);
        let listing = self.core.list(pass.session())?;
        publish_last(&mut self.pen, desk, pass, self.core.history());
        Ok(listing)
    }
}
