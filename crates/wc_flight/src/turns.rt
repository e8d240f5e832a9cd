ghost use Rattle.std.specs.Prelude.{◌≡◌};
ghost use Rattle.wc_core.specs.Fits.{FitsLanded, FitsTicket};
ghost use Rattle.wc_flight.specs.Calls.{IsReady};
ghost use Rattle.wc_flight.specs.Inner.Holds.{IsHeld, Lands, NextAnswers, PinAnswers};
ghost use Rattle.wc_model.specs.Workspace.History.{IsLegal};

use crate::Named;
use crate::locked::{Locked, publish_last};
use std::alloc::AllocError;
use wc_core::{Landed, Next, Ticket, Work};
use wc_pass::{Desk, Pass};

// The holds of an ask.
impl<N: Named, W: Work> Locked<N, W> {
    pub(crate) fn pin(
        &mut self,
        desk: &Desk,
        pass: &mut Pass,
        name: &[u8],
    ) -> Result<Ticket<W::Value>, AllocError>
        requires desk { desk.now ≡ N.desk }
        requires ready { IsReady N.desk N.opening pass.old }
        ensures legal { IsLegal W.chain N.opening pass.new.seen }
        ensures answer { PinAnswers W.is_feature N.desk N.opening pass.old pass.new name.now result }
    {
        self.meet(desk, pass);
        let ticket = self.core.pin(pass.session(), name)?;
        publish_last(&mut self.pen, desk, pass, self.core.history());
        Ok(ticket)
    }

    pub(crate) fn next(&mut self, desk: &Desk, pass: &mut Pass, ticket: Ticket<W::Value>) -> Next<W>
        requires desk { desk.now ≡ N.desk }
        requires held { IsHeld N.desk pass.old ticket }
        requires fits { FitsTicket W.is_feature N.opening pass.old.seen ticket }
        ensures legal { IsLegal W.chain N.opening pass.new.seen }
        ensures answer { NextAnswers W.chain W.is_feature N.desk N.opening pass.old pass.new ticket result }
    {
        self.meet(desk, pass);
        match self.core.next(ticket) {
            Next::Busy(back, session) => Next::Busy(back, session),
            Next::Run(flight) => {
                publish_last(&mut self.pen, desk, pass, self.core.history());
                Next::Run(flight)
            }
            Next::Done(asked) => {
                publish_last(&mut self.pen, desk, pass, self.core.history());
                Next::Done(asked)
            }
        }
    }

    pub(crate) fn give(
        &mut self,
        desk: &Desk,
        pass: &mut Pass,
        landed: Landed<W>,
    ) -> Ticket<W::Value>
        requires desk { desk.now ≡ N.desk }
        requires pass { (pass.old.desk ≡ N.desk) × (landed.ticket.session ≡ pass.old.session) }
        requires fits { FitsLanded W.is_feature N.opening pass.old.seen landed }
        ensures legal { IsLegal W.chain N.opening pass.new.seen }
        ensures answer { Lands W.is_feature N.opening pass.old pass.new landed result }
    {
        self.meet(desk, pass);
        let ticket = self.core.give(landed);
        publish_last(&mut self.pen, desk, pass, self.core.history());
        ticket
    }
}
