ghost use Rattle.std.specs.Prelude.{ℕ, ◌≡◌, ◌≢◌, ◌+◌, ◌<◌, ◌≤◌, List, IfOk, IfSome};
ghost use Rattle.wc_core.specs.Fits.{FitsFlight, FitsLanded};
ghost use Rattle.wc_core.specs.Inner.Gifts.{AreCopiesOf, IsCopyFor, IsGift};
ghost use Rattle.wc_model.specs.declared.entries.Entry.{Entry};
ghost use Rattle.wc_model.specs.Workspace.States.{Opening};

use crate::given::Given;
use crate::rows::Row;
use crate::work::{Job, Work};
use std::alloc::{AllocError, Global};
use std::marker::Model;
use std::sync::Arc;
use wc_model::Asked;

/// An open ask in its session's hands: the inputs that it was pinned to, and the values that it has.
#[derive(Drop)]
pub struct Ticket<V> {
    pub(crate) session: u32,
    pub(crate) at: u64,
    pub(crate) memory: bool,
    pub(crate) job: Job,
    pub(crate) given: Given<V>,
}

impl<V> Model for Ticket<V> {
    ghost use Rattle.wc_model.specs.Workspace.Edits.{setting_of};
    ghost use Rattle.wc_core.specs.Views.{KnownTicket};

    ghost Value = { KnownTicket V };

    ghost view = { λ t. record { session = t.session; name = t.job.name.value; at = t.at; inputs = setting_of t.job.inputs.value; had = t.given; memory = t.memory } };
}

/// A work outside of the core, with the ask that it runs for.
#[derive(Drop)]
pub struct Flight<W: Work> {
    pub(crate) work: W,
    pub(crate) ticket: Ticket<W::Value>,
    pub(crate) stamp: u64,
    pub(crate) sessions: u32,
}

impl<W: Work> Model for Flight<W> {
    ghost use Rattle.std.specs.Prelude.{◌<◌, ◌≤◌, ◌-◌, ◌^◌};
    ghost use Rattle.wc_core.specs.Features.{HasRequired};
    ghost use Rattle.wc_core.specs.Views.{KnownFlight};

    ghost Value = { KnownFlight W.Value };

    ghost view = { λ f. record { ticket = f.ticket; kind = W.kind_of f.work; stamp = f.stamp; runs = W.runs_of f.work; sessions = f.sessions } };

    ghost invariant = { λ f. (W.runs_of f.work < 2 ^ 64 - 1) × (f.sessions ≤ 64) × HasRequired W.described (λ k v. W.is_feature k f.ticket.inputs f.ticket.name v) (W.kind_of f.work) f.ticket.had };
}

// What a run gave: the copy of the ask's own session, those of the others at their numbers, and what a new row of the
// store needs.
#[derive(Drop)]
pub(crate) struct Gift<V> {
    pub(crate) own: Arc<V>,
    pub(crate) copies: Vec<Option<Arc<V>>>,
    pub(crate) name: Vec<u8>,
    pub(crate) row: Row<V>,
}

impl<V> Model for Gift<V> {
    ghost use Rattle.wc_core.specs.Inner.Gifts.{KnownGift};

    ghost Value = { KnownGift V };

    ghost view = { λ g. record { own = g.own; copies = g.copies.items; name = g.name.items; row = g.row } };
}

/// A work that has run, with what it gave.
#[derive(Drop)]
pub struct Landed<W: Work> {
    pub(crate) work: W,
    pub(crate) ticket: Ticket<W::Value>,
    pub(crate) stamp: u64,
    pub(crate) sessions: u32,
    pub(crate) gave: Option<Gift<W::Value>>,
}

impl<W: Work> Model for Landed<W> {
    ghost use Rattle.std.specs.Prelude.{IfSome};
    ghost use Rattle.wc_core.specs.Inner.Gifts.{IsGift, gift_value};
    ghost use Rattle.wc_core.specs.Views.{KnownLanded};

    ghost Value = { KnownLanded W.Value };

    ghost view = { λ l. record { ticket = l.ticket; kind = W.kind_of l.work; stamp = l.stamp; runs = W.runs_of l.work; sessions = l.sessions; gave = gift_value l.gave } };

    ghost invariant = { λ l. IfSome l.gave (IsGift l.sessions l.ticket.session l.ticket.name) };
}

// A copy of a value for a session, but for the ask's own and for none.
fn copy_for<V>(value: &Arc<V>, session: u32, own: u32) -> Result<Option<Arc<V>>, AllocError>
    ensures { IfOk result (λ copy. IsCopyFor session own value.now.value copy) }
{
    if session == 0 || session == own {
        Ok(None)
    } else {
        Ok(Some(Arc::try_clone(value)?))
    }
}

fn copies_of<V: Drop>(
    alloc: Global,
    value: &Arc<V>,
    sessions: u32,
    own: u32,
) -> Result<Vec<Option<Arc<V>>>, AllocError>
    requires { sessions ≤ 64 }
    ensures { IfOk result (λ copies. AreCopiesOf value.now.value (sessions + 1) own copies.items) }
{
    let mut copies = Vec::new(alloc);
    for session in 0..sessions + 1 {
        copies.push(copy_for(value, session, own)?)?;
    }
    Ok(copies)
}

fn gift_of<V: Drop>(
    alloc: Global,
    own: Arc<V>,
    ticket: &Ticket<V>,
    sessions: u32,
) -> Result<Gift<V>, AllocError>
    requires { sessions ≤ 64 }
    ensures gift { IfOk result (IsGift sessions ticket.now.session ticket.now.name) }
    ensures own { IfOk result (λ g. g.own ≡ own) }
{
    let copies = copies_of(alloc, &own, sessions, ticket.session)?;
    let mut name = Vec::new(alloc);
    name.extend_from_slice(ticket.job.name.items())?;
    let row = Row::new(alloc)?;
    Ok(Gift {
        own,
        copies,
        name,
        row,
    })
}

impl<W: Work> Flight<W> {
    /// Runs the work, and makes a copy of its value for each session. Want of memory, also for a copy, is kept in what
    /// landed.
    pub fn run(self, alloc: Global) -> Landed<W>
        ensures ticket { result.ticket ≡ self.ticket }
        ensures work { (result.kind ≡ self.kind) × (result.stamp ≡ self.stamp) × (result.runs ≡ self.runs + 1) }
        ensures gave { IfSome result.gave (W.is_feature self.kind self.ticket.inputs self.ticket.name) }
        ensures fits { (o : Opening) (h : List Entry) → FitsFlight W.is_feature o h self → FitsLanded W.is_feature o h result }
    {
        let Flight {
            mut work,
            ticket,
            stamp,
            sessions,
        } = self;
        let gave = match work.run(alloc, &ticket.job, &ticket.given) {
            Ok(value) => gift_of(alloc, value, &ticket, sessions).ok(),
            Err(AllocError) => None,
        };
        Landed {
            work,
            ticket,
            stamp,
            sessions,
            gave,
        }
    }
}

/// What `next` gives: the answer, a work to run, or the session that the ask waits for.
#[derive(Drop)]
pub enum Next<W: Work> {
    Done(Asked),
    Run(Flight<W>),
    Busy(Ticket<W::Value>, u32),
}
