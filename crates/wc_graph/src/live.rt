ghost use Rattle.std.specs.Prelude.{◌≡◌, ◌<◌, ◌∷◌, [], IfOk, true, false, length};
ghost use Rattle.wc_graph.specs.Inner.Lists.{Inside};
ghost use Rattle.wc_graph.specs.Inner.Ordered.{AreLiveFrames, AreWithin};
ghost use Rattle.wc_graph.specs.Inner.Spreads.{AllInside, IsUnmarked, Marks, IsSpread};

use crate::buckets::Buckets;
use crate::frames::Place;
use crate::lists::filled;
use std::alloc::{AllocError, Global};

// Numbers that are marked, and those of them whose neighbours wait to be marked.
#[derive(Drop)]
pub struct Marked {
    pub marks: Vec<bool>,
    pub work: Vec<u32>,
}

impl Marked {
    fn new(alloc: Global, count: usize) -> Result<Self, AllocError>
        ensures { IfOk result (IsUnmarked count) }
    {
        let marks = filled(alloc, count, false)?;
        let work = Vec::new(alloc);
        Ok(Marked { marks, work })
    }

    // A number is marked.
    fn mark(&mut self, number: u32) -> Result<(), AllocError>
        requires { number < length self.old.marks.items }
        ensures { IfOk result (λ _. Marks (number ∷ []) self.old self.new) }
    {
        if self.marks[number as usize] {
            return Ok(());
        }
        self.marks[number as usize] = true;
        self.work.push(number)?;
        Ok(())
    }

    // A number is marked where it is told so.
    fn mark_if(&mut self, told: bool, number: u32) -> Result<(), AllocError>
        requires { number < length self.old.marks.items }
        ensures marks { IfOk result (λ _. told ≡ true → Marks (number ∷ []) self.old self.new) }
        ensures same { IfOk result (λ _. told ≡ false → self.new ≡ self.old) }
        ensures count { IfOk result (λ _. length self.new.marks.items ≡ length self.old.marks.items) }
    {
        if !told {
            return Ok(());
        }
        self.mark(number)
    }

    // Numbers are marked.
    fn mark_all(&mut self, numbers: &[u32]) -> Result<(), AllocError>
        requires { Inside (length self.old.marks.items) numbers.now }
        ensures { IfOk result (λ _. Marks numbers.now self.old self.new) }
    {
        for number in numbers {
            self.mark(*number)?;
        }
        Ok(())
    }
}

/// The numbers that are reached from some of these, along the lists of neighbours.
pub fn spread(alloc: Global, into: &Buckets, from: &[u32]) -> Result<Vec<bool>, AllocError>
    requires lists { AllInside into.now }
    requires from { Inside (length into.now) from.now }
    ensures { IfOk result (λ v. IsSpread into.now from.now v.items) }
{
    let mut marked = Marked::new(alloc, into.len())?;
    let mut own = Vec::new(alloc);
    marked.mark_all(from)?;
    while let Some(number) = marked.work.pop() {
        into.gather(number as usize, &mut own)?;
        marked.mark_all(own.as_slice())?;
    }
    Ok(marked.marks)
}

/// The frames of the live positions, among so many frames.
pub fn live_frames(
    alloc: Global,
    count: usize,
    places: &[Place],
    live: &[bool],
) -> Result<Vec<bool>, AllocError>
    requires live { length live.now ≡ length places.now }
    requires inside { AreWithin count places.now }
    ensures { IfOk result (λ v. AreLiveFrames count places.now live.now (length places.now) v.items) }
{
    let mut marked = Marked::new(alloc, count)?;
    for number in 0..places.len() {
        marked.mark_if(live[number], places[number].frame)?;
    }
    Ok(marked.marks)
}
