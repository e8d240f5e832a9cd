ghost use Rattle.std.specs.Prelude.{◌≡◌, ◌∷◌, ◌<◌, ◌+◌, All, length, IfOk};
ghost use Rattle.wc_core.specs.Inner.Seats.{IsNameTaken, all_names, no_seat, seat_at, with_seat};

use std::alloc::{AllocError, Global};
use std::marker::Model;
use wc_model::{Kind, Text};

/// What the core holds for an open ask: each kind with the ask's own stamp, in the registry's order, and copies of the
/// ask's name for what it may still add.
#[derive(Drop)]
pub struct Seat {
    pub keys: Vec<(Kind, u64)>,
    pub names: Vec<Text>,
}

impl Model for Seat {
    ghost use Rattle.wc_core.specs.Inner.Seats.{KnownSeat};

    ghost Value = { KnownSeat };

    ghost view = { λ s. record { keys = s.keys.items; names = s.names.items } };
}

impl Seat {
    pub fn empty(alloc: Global) -> Seat
        ensures { result ≡ no_seat }
    {
        Seat {
            keys: Vec::new(alloc),
            names: Vec::new(alloc),
        }
    }

    fn take_name(&mut self) -> Text
        requires { 0 < length self.old.names }
        ensures { IsNameTaken self.old self.new result }
    {
        self.names.take_last()
    }
}

/// The seat of each session, at its number.
#[derive(Drop)]
pub struct Seats {
    seats: Vec<Seat>,
}

impl Model for Seats {
    ghost use Rattle.std.specs.Prelude.{List};
    ghost use Rattle.wc_core.specs.Inner.Seats.{KnownSeat};

    ghost Value = { List KnownSeat };

    ghost view = { λ s. s.seats.items };
}

impl Seats {
    pub fn new(alloc: Global, places: usize) -> Result<Seats, AllocError>
        ensures empty { IfOk result (λ seats. All (λ s. s ≡ no_seat) seats) }
        ensures counted { IfOk result (λ seats. length seats ≡ places) }
    {
        let mut seats = Vec::with_capacity(alloc, places)?;
        for _place in 0..places {
            seats.push(Seat::empty(alloc))?;
        }
        Ok(Seats { seats })
    }

    pub fn keys(&self, session: usize) -> &[(Kind, u64)]
        requires { session < length self.now }
        ensures { result.now ≡ (seat_at session self.now).keys }
    {
        self.seats[session].keys.as_slice()
    }

    pub fn names(&self, session: usize) -> usize
        requires { session < length self.now }
        ensures { result ≡ length (seat_at session self.now).names }
    {
        self.seats[session].names.len()
    }

    pub fn take_name(&mut self, session: usize) -> Text
        requires place { session < length self.old }
        requires names { 0 < length (seat_at session self.old).names }
        ensures { (s : _) × IsNameTaken (seat_at session self.old) s result × (self.new ≡ with_seat session s self.old) }
    {
        self.seats[session].take_name()
    }

    pub fn fill(&mut self, session: usize, seat: Seat)
        requires { session < length self.old }
        ensures { self.new ≡ with_seat session seat self.old }
    {
        self.seats[session] = seat;
    }
}
