ghost use Rattle.std.specs.Prelude.{◌≡◌, ◌<◌, ◌≤◌, IfOk, length};
ghost use Rattle.wc_graph.specs.Inner.Codes.{IsCode, IsNew, HasPlace, HasTarget};
ghost use Rattle.wc_graph.specs.Inner.Exploring.{Expands};

use crate::frames::{Frame, Leap, Place, Turn, Way};
use crate::interned::number_of_frame;
use crate::places::Places;
use crate::rows::Rows;
use indexmap::IndexSet;
use std::alloc::{AllocError, Global};
use wc_base::Addr;

/// How many positions are analysed at most.
pub const MOST: usize = 100_000;

/// The frames and the positions that were found, and the steps of those that are expanded.
#[derive(Drop)]
pub struct Code {
    pub frames: IndexSet<Frame>,
    pub places: Places,
    pub leaps: Rows,
}

impl Code {
    /// The start of a function alone.
    pub fn new(alloc: Global, entry: Addr) -> Result<Self, AllocError>
        ensures { IfOk result (IsNew entry) }
    {
        let mut code = Code {
            frames: IndexSet::new(alloc),
            places: Places::new(alloc)?,
            leaps: Rows::new(alloc),
        };
        let frame = Frame {
            parent: None,
            returns: 0,
            callee: entry,
        };
        number_of_frame(&mut code.frames, frame)?;
        let place = Place {
            frame: 0,
            pc: entry,
        };
        code.places.number_of(place)?;
        Ok(code)
    }

    // Where a way leads: within the frame, into a new one, or back to the one below.
    fn place_of(&mut self, place: Place, way: Way) -> Result<Option<Place>, AllocError>
        requires { length self.old.frames.keys ≤ 100000 }
        ensures places { self.new.places ≡ self.old.places }
        ensures leaps { self.new.leaps ≡ self.old.leaps }
        ensures place { IfOk result (HasPlace self.old.frames.keys self.new.frames.keys place way) }
    {
        match way {
            Way::Go(pc) => Ok(Some(Place {
                frame: place.frame,
                pc,
            })),
            Way::Call { callee, returns } => {
                let frame = Frame {
                    parent: Some(place.frame),
                    returns,
                    callee,
                };
                let number = number_of_frame(&mut self.frames, frame)?;
                Ok(Some(Place {
                    frame: number as u32,
                    pc: callee,
                }))
            }
            Way::Leave => {
                let Some(frame) = self.frames.get_index(place.frame as usize) else {
                    return Ok(None);
                };
                match frame.parent {
                    None => Ok(None),
                    Some(parent) => Ok(Some(Place {
                        frame: parent,
                        pc: frame.returns,
                    })),
                }
            }
        }
    }

    // The number of the place where a way leads, nothing for the exit.
    fn target(&mut self, place: Place, way: Way) -> Result<Option<u32>, AllocError>
        requires frames { length self.old.frames.keys ≤ 100000 }
        requires places { length self.old.places.keys ≤ 100000 }
        ensures leaps { self.new.leaps ≡ self.old.leaps }
        ensures target { IfOk result (HasTarget self.old self.new place way) }
    {
        let Some(place) = self.place_of(place, way)? else {
            return Ok(None);
        };
        let number = self.places.number_of(place)?;
        Ok(Some(number as u32))
    }

    /// The steps along these ways of a position; false where no more positions are analysed.
    pub fn expand(
        &mut self,
        place: Place,
        turns: &[Turn],
        leaps: &mut Vec<Leap>,
    ) -> Result<bool, AllocError>
        requires code { IsCode self.old }
        requires inside { place.frame < length self.old.frames.keys }
        requires few { length self.old.places.keys ≤ 100000 }
        ensures leaps { self.new.leaps ≡ self.old.leaps }
        ensures expanded { IfOk result (Expands self.old self.new place turns.now leaps.new.items) }
    {
        leaps.clear();
        for turn in turns {
            let target = self.target(place, turn.way)?;
            if MOST < self.places.len() {
                return Ok(false);
            }
            leaps.push(Leap {
                target,
                taken: turn.taken,
            })?;
        }
        Ok(true)
    }
}
