ghost use Rattle.std.specs.Prelude.{◌≡◌, ◌+◌, ◌-◌, ◌^◌, ◌<◌, true, [], ◌∷◌, ◌++◌, length};
ghost use Rattle.wc_model.specs.Workspace.Entries.{session_of, entries_of};
ghost use Rattle.wc_pass.specs.Known.{IsPrefix};

use crate::views::View;
use crate::{Desk, Note, Pass};
use atomic_table::Seat;
use std::marker::{Brand, Model};
use wc_model::Entry;

/// The one writer of a desk: what it has seen is the published list.
#[derive(Drop)]
pub struct Pen {
    seat: Seat<(), View>,
    count: u64,
}

impl Model for Pen {
    ghost use Rattle.std.specs.Prelude.{◌≡◌, [], true, length};
    ghost use Rattle.wc_pass.specs.Known.{Known};

    ghost Value = { Known };

    ghost view = { λ p. record { desk = p.seat.table_id; seen = p.seat.me.0.seen } };

    ghost invariant = { λ p. (p.seat.me.1 ≡ []) × (p.seat.me.0.pen ≡ true) × (p.seat.me.0.session ≡ 0) × (length p.seat.me.0.seen ≡ p.count) };
}

impl Pen {
    pub(crate) fn begin(seat: Seat<(), View>) -> Pen
        requires { (seat.me.1 ≡ []) × (seat.me.0.pen ≡ true) × (seat.me.0.session ≡ 0) × (seat.me.0.seen ≡ []) }
        ensures { result ≡ record { desk = seat.table_id; seen = [] } }
    {
        Pen { seat, count: 0 }
    }

    /// Publishes an entry of the opening, which no session made.
    pub fn publish(&mut self, desk: &Desk, entry: &Entry)
        requires desk { self.old.desk ≡ desk.now }
        requires opening { session_of entry.now ≡ 0 }
        requires room { length self.old.seen < 2 ^ 64 - 1 }
        ensures { self.new ≡ record self.old { seen = self.old.seen ++ entry.now ∷ [] } }
    {
        desk.load(&mut self.seat);
        desk.store::<Brand>(&mut self.seat, self.count, entry);
        self.count += 1;
    }

    /// Publishes an entry of the pass's session. The pass has then seen all that is published.
    pub fn publish_for(&mut self, desk: &Desk, pass: &mut Pass, entry: &Entry)
        requires desk { (self.old.desk ≡ desk.now) × (pass.old.desk ≡ desk.now) }
        requires session { session_of entry.now ≡ pass.old.session }
        requires room { length self.old.seen < 2 ^ 64 - 1 }
        ensures published { self.new ≡ record self.old { seen = self.old.seen ++ entry.now ∷ [] } }
        ensures pass { pass.new ≡ record pass.old { seen = self.new.seen } }
        ensures before { IsPrefix pass.old.seen self.old.seen }
        // Beyond what the pass had seen no entry of its session stands but this one.
        ensures own { entries_of pass.old.session self.old.seen ≡ entries_of pass.old.session pass.old.seen }
    {
        let role = desk.split_role(&mut self.seat);
        desk.join_role(&mut pass.seat, role);
        desk.load(&mut pass.seat);
        desk.store::<Brand>(&mut pass.seat, self.count, entry);
        let role = desk.split_role(&mut pass.seat);
        desk.join_role(&mut self.seat, role);
        let count = self.count + 1;
        self.count = count;
        pass.count = count;
    }

    /// Shows the pass all that is published.
    pub fn meet(&mut self, desk: &Desk, pass: &mut Pass)
        requires { (self.old.desk ≡ desk.now) × (pass.old.desk ≡ desk.now) }
        ensures same { self.new ≡ self.old }
        ensures pass { pass.new ≡ record pass.old { seen = self.old.seen } }
        ensures before { IsPrefix pass.old.seen self.old.seen }
        // Beyond what the pass had seen no entry of its session stands.
        ensures own { entries_of pass.old.session self.old.seen ≡ entries_of pass.old.session pass.old.seen }
    {
        let role = desk.split_role(&mut self.seat);
        desk.join_role(&mut pass.seat, role);
        desk.load(&mut pass.seat);
        let role = desk.split_role(&mut pass.seat);
        pass.count = self.count;
        desk.join_role(&mut self.seat, role);
    }

    /// A copy of the published list, for a pass to learn.
    pub fn note(&mut self, desk: &Desk) -> Note
        requires { self.old.desk ≡ desk.now }
        ensures same { self.new ≡ self.old }
        ensures copy { result ≡ self.old }
    {
        Note::of(desk.copy(&mut self.seat), self.count)
    }
}
