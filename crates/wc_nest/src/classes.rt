ghost use Rattle.std.specs.Prelude.{◌≡◌, ◌+◌, ◌<◌, ◌≤◌, All, AllPairs, IfOk, [], length};
ghost use Rattle.wc_model.specs.Flow.Walks.{AreSteps};
ghost use Rattle.wc_nest.specs.Inner.Classes.{IsFirstWay, AreFirst, IsFresh, IsRested, IsRun, IsVisit, IsClassified, AreEnds};
ghost use Rattle.wc_nest.specs.Inner.Searches.{IsSearch};
ghost use Rattle.wc_nest.specs.Inner.Ways.{way_ends};

use crate::marking::Mark;
use crate::search::Search;
use crate::ways::Way;
use std::alloc::AllocError;

impl Search {
    // The classes of a level, as marks of its members.
    pub fn classes(&mut self, ways: &[Way], members: &[u32]) -> Result<(), AllocError>
        requires steps { AreSteps way_ends (length self.old.marks.items) ways.now }
        requires known { All (λ p. p < length self.old.marks.items) members.now }
        requires ends { AreEnds ways.now members.now }
        requires fresh { IsFresh self.old }
        ensures { IfOk result (λ _. IsClassified ways.now members.now self.old self.new) }
    {
        self.begin(ways);
        for node in members {
            self.visit(ways, *node)?;
        }
        Ok(())
    }

    fn begin(&mut self, ways: &[Way])
        requires steps { AreSteps way_ends (length self.old.marks.items) ways.now }
        requires fresh { IsFresh self.old }
        ensures rested { IsRested ways.now self.new }
        ensures marks { self.new.marks.items ≡ self.old.marks.items }
    {
        self.roots.clear();
        find_first(ways, &mut self.next);
    }

    // A node gets its class, and so do all that it leads to.
    fn visit(&mut self, ways: &[Way], node: u32) -> Result<(), AllocError>
        requires steps { AreSteps way_ends (length self.old.marks.items) ways.now }
        requires rested { IsRested ways.now self.old }
        requires known { node < length self.old.marks.items }
        ensures { IfOk result (λ _. IsVisit ways.now node self.old self.new) }
    {
        match self.marks[node as usize] {
            Mark::New => {
                self.enter(node)?;
                self.run(ways)?;
            }
            _ => {}
        }
        Ok(())
    }

    fn run(&mut self, ways: &[Way]) -> Result<(), AllocError>
        requires steps { AreSteps way_ends (length self.old.marks.items) ways.now }
        requires search { IsSearch ways.now self.old }
        ensures { IfOk result (λ _. IsRun ways.now self.old self.new) }
    {
        while let Some(place) = self.path.last().copied() {
            self.advance(ways, place)?;
        }
        Ok(())
    }
}

// Per node that has ways the place of the first one.
fn find_first(ways: &[Way], next: &mut Vec<usize>)
    requires known { All (λ w. w.source < length next.old.items) ways.now }
    requires sorted { AllPairs (λ s t. s.source ≤ t.source) ways.now }
    ensures first { AreFirst ways.now (length ways.now) next.new.items }
    ensures count { length next.new.items ≡ length next.old.items }
{
    for index in 0..ways.len() {
        note_first(ways, index, next);
    }
}

fn note_first(ways: &[Way], index: usize, next: &mut Vec<usize>)
    requires inside { index < length ways.now }
    requires known { All (λ w. w.source < length next.old.items) ways.now }
    requires sorted { AllPairs (λ s t. s.source ≤ t.source) ways.now }
    ensures first { AreFirst ways.now index next.old.items → AreFirst ways.now (index + 1) next.new.items }
    ensures count { length next.new.items ≡ length next.old.items }
{
    if is_first(ways, index) {
        next[ways[index].source as usize] = index;
    }
}

// Whether the way at a place is the first one of its node.
fn is_first(ways: &[Way], index: usize) -> bool
    requires { index < length ways.now }
    ensures { IsFirstWay ways.now index result }
{
    index == 0 || ways[index - 1].source != ways[index].source
}
