ghost use Rattle.std.specs.Prelude.{◌≡◌, not, find, option_map, reverse};
ghost use Rattle.wc_model.specs.Workspace.History.{IsLegal, key_with};
ghost use Rattle.wc_core.specs.Answers.{Advances, IsDone, IsStarted, IsBusy};
ghost use Rattle.wc_core.specs.Fits.{FitsTicket};
ghost use Rattle.wc_core.specs.Inner.Steps.{IsStep, bound_key, is_reached, outcome_now, step_is, told};
ghost use Rattle.wc_core.specs.Inner.Works.{runs_with};
ghost use Rattle.wc_core.specs.Turns.{unless_running, runner_of_key};

use crate::answers::Step;
use crate::moves::{pull, put};
use crate::seats::Seat;
use crate::shared::Core;
use crate::store::Store;
use crate::tickets::{Flight, Next, Ticket};
use crate::work::Work;
use crate::works::Works;
use wc_model::{Asked, Entry, Kind, Outcome};

// The key of the bound.
fn bound_key(keys: &[(Kind, u64)]) -> Option<&(Kind, u64)>
    ensures { option_map (λ k. k.now) result ≡ bound_key keys.now }
{
    keys.iter().find(|key| key.0.number() == 11)
}

fn is_reached<V>(store: &Store<V>, ticket: &Ticket<V>, key: (Kind, u64)) -> bool
    ensures { result ≡ is_reached ticket.now.name ticket.now.had store.now.lines key }
{
    ticket.given.has(key.0) || store.has(ticket.job.name.items(), key.0, key.1)
}

// The first key that isn't within the ask's reach.
fn missing<'a, V>(
    store: &Store<V>,
    ticket: &Ticket<V>,
    keys: &'a [(Kind, u64)],
) -> Option<&'a (Kind, u64)>
    ensures { option_map (λ k. k.now) result ≡ find (λ k. not (is_reached ticket.now.name ticket.now.had store.now.lines k)) keys.now }
{
    keys.iter().find(|key| !is_reached(store, ticket, **key))
}

// What the value of a key tells.
fn told<W: Work>(
    store: &Store<W::Value>,
    ticket: &Ticket<W::Value>,
    key: (Kind, u64),
) -> Option<Outcome>
    ensures { result ≡ told W.outcome_of ticket.now.name ticket.now.session ticket.now.had store.now.lines key }
{
    match ticket.given.get(key.0) {
        Some(value) => W::outcome(value),
        None => match store.get(
            ticket.job.name.items(),
            key.0,
            key.1,
            ticket.session as usize,
        ) {
            Some(value) => W::outcome(value),
            None => None,
        },
    }
}

// Whether a key runs, has to wait for a work, or can start.
fn step_for<W: Work>(works: &Works<W>, name: &[u8], key: (Kind, u64)) -> Step
    ensures { step_is key result (unless_running key.0 (reverse (runs_with key.0 works.now.home)) works.now.out (runner_of_key (key_with key.0 name.now key.1) works.now.out)) }
{
    match works.runner(key.0, name, key.1) {
        Some(session) => Step::Waits(session),
        None if works.has(key.0) => Step::Starts(key.0, key.1),
        None => Step::Waits(works.earliest(key.0)),
    }
}

// The outcome that an ask can answer with now: want of memory where a run of it found none, or else that of its bound.
fn outcome<W: Work>(
    store: &Store<W::Value>,
    ticket: &Ticket<W::Value>,
    keys: &[(Kind, u64)],
) -> Option<Outcome>
    ensures { result ≡ outcome_now W.outcome_of ticket.now store.now.lines keys.now }
{
    if ticket.memory {
        return Some(Outcome::Memory);
    }
    match bound_key(keys) {
        Some(key) => told::<W>(store, ticket, *key),
        None => None,
    }
}

impl<W: Work> Core<W> {
    fn turn(&self, ticket: &Ticket<W::Value>) -> Step
        requires { FitsTicket W.is_feature self.now.opening self.now.history ticket.now }
        ensures step { IsStep W.chain self.now ticket.now result }
        ensures legal { IsLegal W.chain self.now.opening self.now.history }
    {
        let keys = self.seats.keys(ticket.session as usize);
        match outcome::<W>(&self.store, ticket, keys) {
            Some(outcome) => Step::Answers(outcome),
            None => match missing(&self.store, ticket, keys) {
                Some(key) => step_for(&self.works, ticket.job.name.items(), *key),
                None => Step::Waits(0),
            },
        }
    }

    fn answer(&mut self, mut ticket: Ticket<W::Value>, outcome: Outcome) -> Asked
        requires fits { FitsTicket W.is_feature self.old.opening self.old.history ticket }
        requires step { IsStep W.chain self.old ticket (Step.Answers outcome) }
        ensures done { IsDone W.chain self.old self.new ticket result }
        ensures goes { Advances W.chain W.is_feature self.old self.new ticket.session }
    {
        let session = ticket.session as usize;
        let alloc = *self.history.allocator();
        put(&mut self.store, self.seats.keys(session), &mut ticket);
        let name = self.seats.take_name(session);
        self.history.push_reserved(Entry::Answer {
            session: ticket.session,
            name,
            at: ticket.at,
            outcome,
        });
        self.owed -= self.seats.names(session) + 1;
        self.seats.fill(session, Seat::empty(alloc));
        Asked {
            at: ticket.at,
            outcome,
        }
    }

    fn depart(&mut self, mut ticket: Ticket<W::Value>, kind: Kind, stamp: u64) -> Flight<W>
        requires fits { FitsTicket W.is_feature self.old.opening self.old.history ticket }
        requires step { IsStep W.chain self.old ticket (Step.Starts kind stamp) }
        ensures started { IsStarted W.is_feature self.old self.new ticket result }
        ensures goes { Advances W.chain W.is_feature self.old self.new ticket.session }
    {
        let session = ticket.session as usize;
        pull(&mut self.store, self.seats.keys(session), &mut ticket);
        let going = self.seats.take_name(session);
        let name = self.seats.take_name(session);
        let work = self.works.send(ticket.session, kind, going, stamp);
        self.history.push_reserved(Entry::Start {
            session: ticket.session,
            kind,
            name,
            stamp,
        });
        self.owed -= 1;
        Flight {
            work,
            ticket,
            stamp,
            sessions: self.sessions,
        }
    }

    /// Answers the ask, or sends out the work that is needed next. It takes no memory.
    pub fn next(&mut self, ticket: Ticket<W::Value>) -> Next<W>
        requires { FitsTicket W.is_feature self.old.opening self.old.history ticket }
        ensures answer { elim result [ Next.Done asked ↦ IsDone W.chain self.old self.new ticket asked | Next.Run flight ↦ IsStarted W.is_feature self.old self.new ticket flight | Next.Busy back session ↦ IsBusy self.old self.new ticket back session ] }
        ensures goes { Advances W.chain W.is_feature self.old self.new ticket.session }
    {
        match self.turn(&ticket) {
            Step::Answers(outcome) => Next::Done(self.answer(ticket, outcome)),
            Step::Starts(kind, stamp) => Next::Run(self.depart(ticket, kind, stamp)),
            Step::Waits(session) => Next::Busy(ticket, session),
        }
    }
}
