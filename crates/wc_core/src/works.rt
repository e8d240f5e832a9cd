ghost use Rattle.std.specs.Prelude.{◌≡◌, ◌==◌, ◌∷◌, [], true, map, option_map, is_some, IfOk, IfSome, position};
ghost use Rattle.std.specs.List.{find};
ghost use Rattle.wc_core.specs.Inner.Works.{IsFlying, IsSent, is_of};
ghost use Rattle.wc_core.specs.Turns.{runner_of_key, runner_of_kind};
ghost use Rattle.wc_model.specs.Workspace.History.{key_with};
ghost use Rattle.wc_model.specs.Workspace.States.{own_run, same_key, without_own};

use crate::work::Work;
use std::alloc::{AllocError, Global};
use std::marker::Model;
use wc_model::{Kind, Text};

// A run that is out: who started it, what for, and how often its work had run before.
#[derive(Drop)]
pub struct Going {
    pub session: u32,
    pub kind: Kind,
    pub name: Text,
    pub stamp: u64,
    pub runs: u64,
}

impl Model for Going {
    ghost use Rattle.wc_model.specs.Workspace.States.{Run};

    ghost Value = { Run };

    ghost view = { λ g. record { session = g.session; key = record { kind = g.kind; name = g.name; stamp = g.stamp }; runs = g.runs } };
}

impl Going {
    fn is(&self, kind: Kind, name: &[u8], stamp: u64) -> bool
        ensures { result ≡ same_key self.now.key (key_with kind name.now stamp) }
    {
        self.kind.number() == kind.number() && self.name.items() == name && self.stamp == stamp
    }
}

fn is_of<W: Work>(work: &W, kind: Kind) -> bool
    ensures { result ≡ is_of kind (W.kind_of work.now, W.runs_of work.now) }
{
    work.kind().number() == kind.number()
}

// The place of the first work of a kind.
fn place_of<W: Work>(works: &[W], kind: Kind) -> Option<usize>
    ensures { result ≡ position (λ w. is_of kind (W.kind_of w, W.runs_of w)) works.now }
{
    works.iter().position(|work| is_of(work, kind))
}

/// The works at home, the one that came home last first, and the runs that are out, the earliest first.
#[derive(Drop)]
pub struct Works<W: Work> {
    home: Vec<W>,
    out: Vec<Going>,
}

impl<W: Work> Model for Works<W> {
    ghost use Rattle.std.specs.Prelude.{◌+◌, ◌≤◌, length, map};
    ghost use Rattle.std.specs.Vec.{vec_capacity};
    ghost use Rattle.wc_core.specs.Inner.Works.{KnownWorks};

    ghost Value = { KnownWorks };

    ghost view = { λ w. record { home = map (λ x. (W.kind_of x, W.runs_of x)) w.home.items; out = w.out.items } };

    ghost invariant = { λ w. (length w.home.items + length w.out.items ≤ vec_capacity w.home) × (length w.home.items + length w.out.items ≤ vec_capacity w.out) };
}

impl<W: Work> Works<W> {
    pub fn new(alloc: Global, home: Vec<W>) -> Result<Works<W>, AllocError>
        ensures { IfOk result (λ w. w ≡ record { home = map (λ x. (W.kind_of x, W.runs_of x)) home.items; out = [] }) }
    {
        let out = Vec::with_capacity(alloc, home.len())?;
        Ok(Works { home, out })
    }

    /// The session of the run of a key.
    pub fn runner(&self, kind: Kind, name: &[u8], stamp: u64) -> Option<u32>
        ensures { result ≡ runner_of_key (key_with kind name.now stamp) self.now.out }
    {
        match self.out.iter().find(|going| going.is(kind, name, stamp)) {
            Some(going) => Some(going.session),
            None => None,
        }
    }

    fn run_of(&self, kind: Kind) -> Option<&Going>
        ensures { option_map (λ g. g.now) result ≡ find (λ r. r.key.kind == kind) self.now.out }
    {
        self.out
            .iter()
            .find(|going| going.kind.number() == kind.number())
    }

    /// The session of the earliest run of a kind.
    pub fn earliest(&self, kind: Kind) -> u32
        ensures { result ≡ runner_of_kind kind self.now.out }
    {
        match self.run_of(kind) {
            Some(going) => going.session,
            None => 0,
        }
    }

    pub fn has(&self, kind: Kind) -> bool
        ensures { result ≡ is_some (find (is_of kind) self.now.home) }
    {
        place_of(self.home.as_slice(), kind).is_some()
    }

    /// Sends out the work of a kind that came home last.
    pub fn send(&mut self, session: u32, kind: Kind, name: Text, stamp: u64) -> W
        requires { is_some (find (is_of kind) self.old.home) ≡ true }
        ensures kind { W.kind_of result ≡ kind }
        ensures sent { IsSent self.old self.new session kind name stamp (W.runs_of result) }
    {
        let place = place_of(self.home.as_slice(), kind).unwrap_or(0);
        let work = self.home.remove(place);
        self.out.push_reserved(Going {
            session,
            kind,
            name,
            stamp,
            runs: work.runs(),
        });
        work
    }

    fn place(&self, session: u32) -> Option<usize>
        ensures { result ≡ position (λ r. r.session == session) self.now.out }
    {
        self.out.iter().position(|going| going.session == session)
    }

    /// Takes back the work of a session's run, and gives the run's name.
    pub fn bring(&mut self, session: u32, work: W) -> Text
        requires { IsFlying session self.old.out }
        ensures name { IfSome (own_run session self.old.out) (λ r. result ≡ r.key.name) }
        ensures home { self.new.home ≡ (W.kind_of work, W.runs_of work) ∷ self.old.home }
        ensures out { self.new.out ≡ without_own session self.old.out }
    {
        let place = self.place(session).unwrap_or(0);
        let going = self.out.remove(place);
        let _inserted = self.home.insert(0, work);
        going.name
    }

    /// The works at home.
    pub fn close(self) -> Vec<W>
        ensures { map (λ x. (W.kind_of x, W.runs_of x)) result.items ≡ self.home }
    {
        let Works { home, out: _ } = self;
        home
    }
}
