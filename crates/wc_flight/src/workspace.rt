ghost use Rattle.std.specs.Prelude.{◌≡◌};
ghost use Rattle.wc_core.specs.Fits.{FitsLanded, FitsTicket};
ghost use Rattle.wc_flight.specs.Calls.{AskAnswers, EditAnswers, IsReady, ListAnswers};
ghost use Rattle.wc_flight.specs.Inner.Holds.{IsHeld, Lands, NextAnswers};
ghost use Rattle.wc_flight.specs.Openings.{AreFirst};
ghost use Rattle.wc_model.specs.Workspace.History.{IsLegal};

use crate::locked::Locked;
use crate::{Named, Prepared};
use std::alloc::{AllocError, Global};
use std::marker::PhantomData;
use std::sync::{Condvar, Mutex, Wait};
use wc_core::{Edited, Landed, Next, Ticket, Work};
use wc_model::{Asked, Edit, Listing};
use wc_pass::{Desk, Pass};

/// A core and the pen of its history behind a lock, for sessions on threads of their own.
#[derive(Drop)]
pub struct Workspace<N: Named, W: Work + Send> {
    pub(crate) locked: Mutex<Locked<N, W>>,
    pub(crate) given: Condvar,
    pub(crate) desk: Desk,
    ghost desk_is: { desk ≡ N.desk },
}

impl<N: Named, W: Work + Send> Workspace<N, W> {
    /// The workspace that `N` names, and the passes of its sessions. It takes no memory.
    pub fn new(prepared: Prepared<W>) -> (Workspace<N, W>, Vec<Pass>)
        requires { (prepared.desk ≡ N.desk) × (prepared.opening ≡ N.opening) }
        ensures { AreFirst N.desk N.opening result.1.items }
    {
        let Prepared {
            core,
            desk,
            pen,
            passes,
        } = prepared;
        let locked = Mutex::new(Locked {
            core,
            pen,
            of: PhantomData,
        });
        let workspace = Workspace {
            locked,
            given: Condvar::new(),
            desk,
        };
        (workspace, passes)
    }

    /// The desk on which two passes meet by notes.
    pub fn desk(&self) -> &Desk
        ensures { result.now ≡ N.desk }
    {
        &self.desk
    }

    /// Changes the inputs, or refuses to drop a fact that isn't live.
    pub fn edit<R: Wait>(&self, rt: &R, pass: &mut Pass, edit: Edit) -> Result<Edited, AllocError>
        requires { IsReady N.desk N.opening pass.old }
        ensures ready { IsReady N.desk N.opening pass.new }
        ensures session { pass.new.session ≡ pass.old.session }
        ensures legal { IsLegal W.chain N.opening pass.new.seen }
        ensures answer { EditAnswers pass.old pass.new edit result }
    {
        self.locked.lock(rt).edit(&self.desk, pass, edit)
    }

    /// The live facts, the hardware and the edit count.
    pub fn list<R: Wait>(&self, rt: &R, pass: &mut Pass) -> Result<Listing, AllocError>
        requires { IsReady N.desk N.opening pass.old }
        ensures ready { IsReady N.desk N.opening pass.new }
        ensures session { pass.new.session ≡ pass.old.session }
        ensures legal { IsLegal W.chain N.opening pass.new.seen }
        ensures answer { ListAnswers N.opening pass.old pass.new result }
    {
        self.locked.lock(rt).list(&self.desk, pass)
    }

    // One hold. Where the ask has to wait, another run was given back before this returns.
    fn next<R: Wait>(&self, rt: &R, pass: &mut Pass, ticket: Ticket<W::Value>) -> Next<W>
        requires held { IsHeld N.desk pass.old ticket }
        requires fits { FitsTicket W.is_feature N.opening pass.old.seen ticket }
        ensures legal { IsLegal W.chain N.opening pass.new.seen }
        ensures answer { NextAnswers W.chain W.is_feature N.desk N.opening pass.old pass.new ticket result }
    {
        let mut locked = self.locked.lock(rt);
        let next = locked.next(&self.desk, pass, ticket);
        if let Next::Busy(_, _) = &next {
            drop(self.given.wait(rt, locked));
        }
        next
    }

    // One hold, after which all that wait look again.
    fn give<R: Wait>(&self, rt: &R, pass: &mut Pass, landed: Landed<W>) -> Ticket<W::Value>
        requires pass { (pass.old.desk ≡ N.desk) × (landed.ticket.session ≡ pass.old.session) }
        requires fits { FitsLanded W.is_feature N.opening pass.old.seen landed }
        ensures legal { IsLegal W.chain N.opening pass.new.seen }
        ensures answer { Lands W.is_feature N.opening pass.old pass.new landed result }
    {
        let ticket = self.locked.lock(rt).give(&self.desk, pass, landed);
        self.given.notify_all();
        ticket
    }

    /// The outcome of a name on the inputs as they are at the ask's pin. Runs happen outside of the lock.
    pub fn ask<R: Wait>(
        &self,
        rt: &R,
        alloc: Global,
        pass: &mut Pass,
        name: &[u8],
    ) -> Result<Asked, AllocError>
        requires { IsReady N.desk N.opening pass.old }
        ensures ready { IsReady N.desk N.opening pass.new }
        ensures session { pass.new.session ≡ pass.old.session }
        ensures legal { IsLegal W.chain N.opening pass.new.seen }
        ensures answer { AskAnswers W.chain N.opening pass.old pass.new name.now result }
    {
        let mut ticket = self.locked.lock(rt).pin(&self.desk, pass, name)?;
        for _ in rt.forever() {
            ticket = match self.next(rt, pass, ticket) {
                Next::Done(asked) => return Ok(asked),
                Next::Run(flight) => self.give(rt, pass, flight.run(alloc)),
                Next::Busy(back, _) => back,
            };
        }
        unreachable!()
    }
}
