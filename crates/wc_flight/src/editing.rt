ghost use Rattle.std.specs.Prelude.{◌≡◌};
ghost use Rattle.wc_flight.specs.Calls.{EditAnswers, IsReady};
ghost use Rattle.wc_model.specs.Workspace.History.{IsLegal};

use crate::Named;
use crate::locked::{Locked, publish_last};
use std::alloc::AllocError;
use wc_core::{Edited, Work};
use wc_model::Edit;
use wc_pass::{Desk, Pass};

impl<N: Named, W: Work> Locked<N, W> {
    pub(crate) fn edit(
        &mut self,
        desk: &Desk,
        pass: &mut Pass,
        edit: Edit,
    ) -> Result<Edited, AllocError>
        requires desk { desk.now ≡ N.desk }
        requires ready { IsReady N.desk N.opening pass.old }
        ensures ready { IsReady N.desk N.opening pass.new }
        ensures session { pass.new.session ≡ pass.old.session }
        ensures legal { IsLegal W.chain N.opening pass.new.seen }
        ensures answer { EditAnswers pass.old pass.new edit result }
    {
        self.meet(desk, pass);
        let edited = self.core.edit(pass.session(), edit)?;
        publish_last(&mut self.pen, desk, pass, self.core.history());
        Ok(edited)
    }
}
