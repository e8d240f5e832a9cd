ghost use Rattle.std.specs.Prelude.{◌≡◌, ◌<◌, ◌≤◌, [], Some, IfOk, IfSome, length, slice_get};
ghost use Rattle.wc_graph.specs.Inner.Numbers.{HasNumber};
ghost use Rattle.wc_graph.specs.Inner.Places.{slot_of};

use crate::buckets::Buckets;
use crate::frames::Place;
use std::alloc::{AllocError, Global};
use std::marker::Model;

// How many buckets there are: some numbers in each at the most positions that are analysed.
const SLOTS: u64 = 0x8000;

// By which a frame's number is spread over the buckets.
const SPREAD: u64 = 0x79B1;

// The bucket of a place. Places of one frame that follow one another stand in buckets that do.
fn slot(place: Place) -> usize
    ensures slot { result ≡ slot_of place }
    ensures inside { result < 32768 }
{
    ((place.pc as u64 / 4 + place.frame as u64 * SPREAD) % SLOTS) as usize
}

/// Places in the order in which they were found, each once, with their numbers by their buckets.
#[derive(Drop)]
pub struct Places {
    places: Vec<Place>,
    buckets: Buckets,
}

impl Model for Places {
    ghost use Rattle.wc_graph.specs.Inner.Found.{Found};

    ghost Value = { Found };

    ghost use Rattle.wc_graph.specs.Inner.Places.{AreFound};

    ghost view = { λ p. record { keys = p.places.items } };

    ghost invariant = { λ p. AreFound p.places.items p.buckets };
}

impl Places {
    /// No places.
    pub fn new(alloc: Global) -> Result<Self, AllocError>
        ensures { IfOk result (λ p. p.keys ≡ []) }
    {
        let buckets = Buckets::new(alloc, SLOTS as usize, 0)?;
        Ok(Places {
            places: Vec::new(alloc),
            buckets,
        })
    }

    /// How many places there are.
    pub fn len(&self) -> usize
        ensures len { result ≡ length self.now.keys }
    {
        self.places.len()
    }

    /// The places by their numbers.
    pub fn as_slice(&self) -> &[Place]
        ensures keys { result.now ≡ self.now.keys }
    {
        self.places.as_slice()
    }

    /// The number of a place, which goes last where it is new.
    pub fn number_of(&mut self, place: Place) -> Result<usize, AllocError>
        requires { length self.old.keys ≤ 100000 }
        ensures { IfOk result (HasNumber self.old.keys self.new.keys place) }
    {
        let bucket = slot(place);
        if let Some(number) = self.buckets.find(bucket, self.places.as_slice(), place) {
            return Ok(number as usize);
        }
        let number = self.places.len();
        self.buckets.add(bucket, number as u32)?;
        self.places.push(place)?;
        Ok(number)
    }
}
