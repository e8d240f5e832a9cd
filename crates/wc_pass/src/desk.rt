ghost use Rattle.std.specs.Prelude.{◌≡◌, ◌≢◌, ◌+◌, ◌-◌, ◌^◌, ◌<◌, true, false, [], length, IfOk};
ghost use Rattle.wc_model.specs.Workspace.Entries.{session_of};
ghost use Rattle.wc_pass.specs.Known.{new_passes};
ghost use Rattle.wc_pass.specs.Rule.{Learned};
ghost use Rattle.wc_pass.specs.Views.{added, cleared, first_view, one_more, new_pass, copy_of, without_role, role_of, with_copy, with_role};

use crate::views::{Adds, Copied, Law, Learns, NewPass, Role, Says, View};
use crate::{Pass, Pen};
use atomic_table::{Seat, Table};
use std::alloc::{AllocError, Global};
use std::marker::Model;
use wc_model::Entry;

/// The word on which the pen, the passes and the notes of one workspace meet.
#[derive(Drop)]
pub struct Desk {
    table: Table<(), View, (), Law, Global>,
}

impl Model for Desk {
    ghost use Rattle.std.specs.Prelude.{◌≡◌};
    ghost use Rattle.atomic_table.specs.Seated.{TableId, table_id_coded};

    ghost Value = { TableId };

    ghost coded = { table_id_coded };

    ghost view = { λ d. d.table.shared.table_id };

    ghost invariant = { λ d. d.table.shared.table_id.words ≡ 1 };
}

impl Desk {
    /// A desk, its pen, and one pass for each session, numbered from 1. Nothing is published yet.
    pub fn new(alloc: Global, sessions: u32) -> Result<(Desk, Pen, Vec<Pass>), AllocError>
        ensures pen { IfOk result (λ r. r.1 ≡ record { desk = r.0; seen = [] }) }
        ensures passes { IfOk result (λ r. r.2.items ≡ new_passes r.0 sessions) }
    {
        let mut passes = Vec::with_capacity(alloc, sessions as usize)?;
        let (table, mut seat) = Table::of_words(alloc, &[0], &())?;
        let desk = Desk { table };
        for made in 0..sessions {
            let new = desk.new_pass(&mut seat);
            passes.push_reserved(Pass::begin(new, made + 1));
        }
        Ok((desk, Pen::begin(seat), passes))
    }

    // One step of a seat each.

    pub(crate) fn store<E: Says>(&self, seat: &mut Seat<(), View>, count: u64, entry: &Entry)
        requires seat { (seat.old.table_id ≡ self.now) × (seat.old.me.0.pen ≡ true) × (seat.old.me.0.olds ≡ []) }
        requires entry { (entry.now ≡ E.entry) × (session_of entry.now ≡ seat.old.me.0.session) }
        requires count { (length seat.old.me.0.seen ≡ count) × (count < 2 ^ 64 - 1) }
        ensures { (seat.new.table_id ≡ seat.old.table_id) × (seat.new.me ≡ (added seat.old.me.0 E.entry, seat.old.me.1)) }
    {
        self.table.shared.store::<Adds<E>>(seat, 0, count + 1);
    }

    pub(crate) fn load(&self, seat: &mut Seat<(), View>)
        requires { seat.old.table_id ≡ self.now }
        ensures { (seat.new.table_id ≡ seat.old.table_id) × (seat.new.me ≡ (cleared seat.old.me.0, seat.old.me.1)) × Learned seat.old.me.0 }
    {
        let _ = self.table.shared.load::<Learns>(seat, 0);
    }

    pub(crate) fn new_pass(&self, seat: &mut Seat<(), View>) -> Seat<(), View>
        requires { (seat.old.table_id ≡ self.now) × (seat.old.me.0.pen ≡ true) }
        ensures pen { (seat.new.table_id ≡ seat.old.table_id) × (seat.new.me ≡ (one_more seat.old.me.0, seat.old.me.1)) }
        ensures pass { (result.table_id ≡ seat.old.table_id) × (result.me ≡ (new_pass seat.old.me.0, [])) }
    {
        self.table.shared.split_seat::<NewPass>(seat)
    }

    pub(crate) fn copy(&self, seat: &mut Seat<(), View>) -> Seat<(), View>
        requires { seat.old.table_id ≡ self.now }
        ensures same { (seat.new.table_id ≡ seat.old.table_id) × (seat.new.me ≡ seat.old.me) }
        ensures copy { (result.table_id ≡ seat.old.table_id) × (result.me ≡ (copy_of seat.old.me.0, [])) }
    {
        self.table.shared.split_seat::<Copied>(seat)
    }

    pub(crate) fn take_copy(&self, seat: &mut Seat<(), View>, copy: Seat<(), View>)
        requires seat { (seat.old.table_id ≡ self.now) × (seat.old.me.0.pen ≡ false) }
        requires copy { (copy.table_id ≡ self.now) × (copy.me.0.pen ≡ false) × (copy.me.1 ≡ []) }
        ensures { (seat.new.table_id ≡ seat.old.table_id) × (seat.new.me ≡ (with_copy seat.old.me.0 copy.me.0, seat.old.me.1)) }
    {
        self.table.shared.join_seat::<Copied>(seat, copy);
    }

    pub(crate) fn split_role(&self, seat: &mut Seat<(), View>) -> Seat<(), View>
        requires { (seat.old.table_id ≡ self.now) × (seat.old.me.0.pen ≡ true) }
        ensures left { (seat.new.table_id ≡ seat.old.table_id) × (seat.new.me ≡ (without_role seat.old.me.0, seat.old.me.1)) }
        ensures role { (result.table_id ≡ seat.old.table_id) × (result.me ≡ (role_of seat.old.me.0, [])) }
    {
        self.table.shared.split_seat::<Role>(seat)
    }

    pub(crate) fn join_role(&self, seat: &mut Seat<(), View>, role: Seat<(), View>)
        requires seat { (seat.old.table_id ≡ self.now) × (seat.old.me.0.pen ≡ false) }
        requires role { (role.table_id ≡ self.now) × (role.me.0.pen ≡ true) × (role.me.1 ≡ []) }
        ensures { (seat.new.table_id ≡ seat.old.table_id) × (seat.new.me ≡ (with_role seat.old.me.0 role.me.0, seat.old.me.1)) }
    {
        self.table.shared.join_seat::<Role>(seat, role);
    }
}
