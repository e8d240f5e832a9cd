ghost use Rattle.std.specs.Prelude.{◌≡◌, ℕ, ◌<◌, ◌≤◌, take, true, false};
ghost use Rattle.wc_ages.specs.Slots.{AreSlots};
ghost use Rattle.wc_ages.specs.States.{IsMustJoin, MustHeld, holds_line, must_ages, must_rank};
ghost use Rattle.wc_model.specs.Cache.Ages.{must_accessed, no_lines};

use crate::slots::{Slot, age_among, fetch, raise_slots, room_in};
use std::marker::Model;

/// The lines that are in a set, with ages that are at most those there. At most 8 ways.
#[derive(Drop)]
pub struct Must {
    ways: u8,
    slots: [Slot; 8],
}

impl Model for Must {
    ghost Value = { MustHeld };

    ghost view = { λ m. record { ways = m.ways; slots = take m.ways m.slots } };

    ghost invariant = { λ m. AreSlots m.ways (take m.ways m.slots) };
}

impl Must {
    /// Holds no line.
    pub fn new(ways: u8) -> Must
        requires some { 1 ≤ ways }
        requires few { ways ≤ 8 }
        ensures ways { result.ways ≡ ways }
        ensures ages { must_ages result ≡ no_lines ways }
    {
        Must {
            ways,
            slots: [Slot { line: 0, age: ways }; 8],
        }
    }

    /// A line is fetched.
    pub fn access(&mut self, line: u32)
        ensures ways { self.new.ways ≡ self.old.ways }
        ensures ages { must_ages self.new ≡ must_accessed (must_ages self.old) line }
    {
        fetch(self.ways, &mut self.slots[..self.ways as usize], line);
    }

    /// Goes to the most precise state that is at most as precise as both.
    pub fn join(&mut self, other: &Self)
        requires { other.now.ways ≡ self.old.ways }
        ensures ways { self.new.ways ≡ self.old.ways }
        ensures joined { IsMustJoin self.old other.now self.new }
    {
        self.raise(other);
    }

    /// Whether a line is there.
    pub fn holds(&self, line: u32) -> bool
        ensures { result ≡ holds_line (must_ages self.now) line }
    {
        age_among(self.ways, &self.slots[..self.ways as usize], line) < self.ways
    }

    // A join, and whether it changed the state.
    pub(crate) fn raise(&mut self, other: &Self) -> bool
        requires { other.now.ways ≡ self.old.ways }
        ensures ways { self.new.ways ≡ self.old.ways }
        ensures joined { IsMustJoin self.old other.now self.new }
        ensures unchanged { result ≡ false → self.new ≡ self.old }
        ensures changed { result ≡ true → must_rank self.new < must_rank self.old }
    {
        let theirs = &other.slots[..other.ways as usize];
        raise_slots(self.ways, &mut self.slots[..self.ways as usize], theirs)
    }

    // The same state.
    pub(crate) fn twin(&self) -> Must
        ensures same { result ≡ self.now }
        ensures small { must_rank result ≤ 64 }
    {
        Must {
            ways: self.ways,
            slots: self.slots,
        }
    }

    // How far all ages are from the number of ways.
    pub(crate) fn room(&self) -> u64
        ensures { result ≡ must_rank self.now }
    {
        room_in(self.ways, &self.slots[..self.ways as usize])
    }
}
