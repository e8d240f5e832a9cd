ghost use Rattle.std.specs.Prelude.{◌≡◌, ◌≤◌};
ghost use Rattle.std.specs.Option.{SomeIff};

use crate::Table;
use std::marker::Model;

/// A kind of feature, a number from 1 to 64.
#[derive(Clone, Copy, Debug, PartialEq, Eq, PartialOrd, Ord)]
pub struct Kind {
    number: u8,
}

impl Model for Kind {
    ghost use Rattle.std.specs.Prelude.{ℕ, ◌≤◌};

    ghost Value = { ℕ };

    ghost view = { λ k. k.number };

    ghost invariant = { λ k. (1 ≤ k.number) × (k.number ≤ 64) };

    ghost inverse = { λ n. record { number = n } };
}

impl Kind {
    pub fn new(number: u8) -> Option<Kind>
        ensures { SomeIff result ((1 ≤ number) × (number ≤ 64)) number }
    {
        if 1 <= number && number <= 64 {
            Some(Kind { number })
        } else {
            None
        }
    }

    pub fn number(&self) -> u8
        ensures { result ≡ self.now }
    {
        self.number
    }
}

/// A part of the inputs that an edit may touch.
#[derive(Clone, Copy, Debug, PartialEq, Eq)]
pub enum Part {
    Steer,
    Loops,
    Limits,
    Cache,
    Cycles,
}

/// What a processor provides, which kinds it requires, and which parts of the inputs it reads.
#[derive(Debug, Drop)]
pub struct Describe {
    pub provides: Kind,
    pub requires_: Table<Kind>,
    pub reads: Table<Part>,
}
