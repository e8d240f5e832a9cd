ghost use Rattle.std.specs.Prelude.{◌≡◌, ◌≢◌, ◌+◌, false, [], length};
ghost use Rattle.wc_model.specs.Workspace.Entries.{entries_of};
ghost use Rattle.wc_pass.specs.Known.{IsPrefix, longer};

use crate::Desk;
use crate::views::View;
use atomic_table::Seat;
use std::marker::Model;

/// What one session has seen of the history. No two passes of a desk have the same session.
#[derive(Drop)]
pub struct Pass {
    pub(crate) seat: Seat<(), View>,
    pub(crate) count: u64,
    session: u32,
}

impl Model for Pass {
    ghost use Rattle.std.specs.Prelude.{◌≡◌, ◌≢◌, ◌∷◌, [], false, length};
    ghost use Rattle.wc_pass.specs.Known.{KnownPass};

    ghost Value = { KnownPass };

    ghost view = { λ p. record { desk = p.seat.table_id; seen = p.seat.me.0.seen; session = p.session } };

    ghost invariant = { λ p. (p.seat.me.1 ≡ []) × (p.seat.me.0.pen ≡ false) × (p.seat.me.0.session ≡ p.session) × (p.session ≢ 0) × (p.seat.me.0.olds ≡ []) × (length p.seat.me.0.seen ≡ p.count) };
}

/// A copy of what a pen or a pass has seen.
#[derive(Drop)]
pub struct Note {
    seat: Seat<(), View>,
    count: u64,
}

impl Model for Note {
    ghost use Rattle.std.specs.Prelude.{◌≡◌, [], false, length};
    ghost use Rattle.wc_pass.specs.Known.{Known};

    ghost Value = { Known };

    ghost view = { λ n. record { desk = n.seat.table_id; seen = n.seat.me.0.seen } };

    ghost invariant = { λ n. (n.seat.me.1 ≡ []) × (n.seat.me.0.pen ≡ false) × (length n.seat.me.0.seen ≡ n.count) };
}

impl Note {
    pub(crate) fn of(seat: Seat<(), View>, count: u64) -> Note
        requires { (seat.me.1 ≡ []) × (seat.me.0.pen ≡ false) × (length seat.me.0.seen ≡ count) }
        ensures { result ≡ record { desk = seat.table_id; seen = seat.me.0.seen } }
    {
        Note { seat, count }
    }
}

impl Pass {
    pub(crate) fn begin(seat: Seat<(), View>, session: u32) -> Pass
        requires { (seat.me.1 ≡ []) × (seat.me.0.pen ≡ false) × (seat.me.0.session ≡ session) × (session ≢ 0) × (seat.me.0.olds ≡ []) × (seat.me.0.seen ≡ []) }
        ensures { result ≡ record { desk = seat.table_id; seen = []; session = session } }
    {
        Pass {
            seat,
            count: 0,
            session,
        }
    }

    /// The pass's session, from 1.
    pub fn session(&self) -> u32
        ensures { result ≡ self.now.session }
    {
        self.session
    }

    /// A copy of what this pass has seen, for another one to learn.
    pub fn note(&mut self, desk: &Desk) -> Note
        requires { self.old.desk ≡ desk.now }
        ensures same { self.new ≡ self.old }
        ensures copy { result ≡ record { desk = self.old.desk; seen = self.old.seen } }
    {
        Note::of(desk.copy(&mut self.seat), self.count)
    }

    /// Takes in what the note has seen, and answers how many entries the pass has seen now.
    pub fn learn(&mut self, desk: &Desk, note: Note) -> u64
        requires desk { (self.old.desk ≡ desk.now) × (note.desk ≡ desk.now) }
        ensures same { (self.new.desk ≡ self.old.desk) × (self.new.session ≡ self.old.session) }
        ensures seen { self.new.seen ≡ longer self.old.seen note.seen }
        ensures before { IsPrefix self.old.seen self.new.seen }
        ensures note { IsPrefix note.seen self.new.seen }
        // Beyond what it had seen no entry of its own session stands.
        ensures own { entries_of self.old.session self.new.seen ≡ entries_of self.old.session self.old.seen }
        ensures count { result ≡ length self.new.seen }
    {
        let Note { seat, count } = note;
        desk.take_copy(&mut self.seat, seat);
        desk.load(&mut self.seat);
        self.count = self.count.max(count);
        self.count
    }
}
