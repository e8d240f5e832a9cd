ghost use Rattle.std.specs.Prelude.{◌≡◌, ◌+◌, ◌-◌, ◌<◌, ◌≤◌, ◌^◌, ◌++◌, ◌∷◌, [], All, IfOk, Some, slice_get, slice_index, slice_set, length, drop, take, IsSome, Contains};
ghost use Rattle.wc_model.specs.Flow.Walks.{AreSteps};
ghost use Rattle.wc_nest.specs.Inner.Searches.{IsSearch, IsNextWay, IsBound, IsBoundAfter, IsRound, marks_closed, marks_entered, next_followed, with_top};
ghost use Rattle.wc_nest.specs.Inner.Ways.{way_ends};

use crate::marking::{Mark, set_all};
use crate::ways::Way;
use std::alloc::{AllocError, Global};

// The search: per node its mark and the place of its first way that isn't followed; the nodes without a class in order
// of entry; the places on the stack where its segments begin, and those of the nodes with ways to follow; and a node of
// each class.
#[derive(Drop)]
pub struct Search {
    pub marks: Vec<Mark>,
    pub next: Vec<usize>,
    pub stack: Vec<u32>,
    pub bounds: Vec<usize>,
    pub path: Vec<usize>,
    pub roots: Vec<u32>,
}

impl Search {
    // The search goes on to a new node.
    pub fn enter(&mut self, node: u32) -> Result<(), AllocError>
        requires { node < length self.old.marks.items }
        ensures marks { self.new.marks.items ≡ marks_entered self.old node }
        ensures next { self.new.next.items ≡ self.old.next.items }
        ensures stack { IfOk result (λ _. self.new.stack.items ≡ self.old.stack.items ++ node ∷ []) }
        ensures path { IfOk result (λ _. self.new.path.items ≡ with_top self.old self.old.path.items) }
        ensures bounds { IfOk result (λ _. self.new.bounds.items ≡ with_top self.old self.old.bounds.items) }
        ensures roots { self.new.roots.items ≡ self.old.roots.items }
    {
        let place = self.stack.len();
        self.marks[node as usize] = Mark::Open(place);
        self.stack.push(node)?;
        self.path.push(place)?;
        self.bounds.push(place)?;
        Ok(())
    }

    // The next way of a node is followed.
    fn follow(&mut self, node: u32)
        requires known { node < length self.old.next.items }
        requires fits { slice_index self.old.next.items node + 1 < 2 ^ 64 }
        ensures marks { self.new.marks.items ≡ self.old.marks.items }
        ensures next { self.new.next.items ≡ next_followed self.old node }
        ensures stack { self.new.stack.items ≡ self.old.stack.items }
        ensures path { self.new.path.items ≡ self.old.path.items }
        ensures bounds { self.new.bounds.items ≡ self.old.bounds.items }
        ensures roots { self.new.roots.items ≡ self.old.roots.items }
    {
        self.next[node as usize] += 1;
    }

    // A way led back before the last segment: it joins the one before.
    fn merge(&mut self, bound: usize)
        requires last { slice_get self.old.bounds.items (length self.old.bounds.items - 1) ≡ Some bound }
        ensures marks { self.new.marks.items ≡ self.old.marks.items }
        ensures next { self.new.next.items ≡ self.old.next.items }
        ensures stack { self.new.stack.items ≡ self.old.stack.items }
        ensures path { self.new.path.items ≡ self.old.path.items }
        ensures bounds { self.old.bounds.items ≡ self.new.bounds.items ++ bound ∷ [] }
        ensures roots { self.new.roots.items ≡ self.old.roots.items }
    {
        self.bounds.pop();
    }

    // All ways of the last node of the path are followed, and its segment goes on.
    fn leave(&mut self, place: usize)
        requires last { slice_get self.old.path.items (length self.old.path.items - 1) ≡ Some place }
        ensures marks { self.new.marks.items ≡ self.old.marks.items }
        ensures next { self.new.next.items ≡ self.old.next.items }
        ensures stack { self.new.stack.items ≡ self.old.stack.items }
        ensures path { self.old.path.items ≡ self.new.path.items ++ place ∷ [] }
        ensures bounds { self.new.bounds.items ≡ self.old.bounds.items }
        ensures roots { self.new.roots.items ≡ self.old.roots.items }
    {
        self.path.pop();
    }

    // All ways of the last segment are followed: it is a class.
    fn close(&mut self, place: usize, node: u32) -> Result<(), AllocError>
        requires known { All (λ p. p < length self.old.marks.items) self.old.stack.items }
        requires open { place ≤ length self.old.stack.items }
        requires path { slice_get self.old.path.items (length self.old.path.items - 1) ≡ Some place }
        requires bounds { slice_get self.old.bounds.items (length self.old.bounds.items - 1) ≡ Some place }
        ensures marks { self.new.marks.items ≡ marks_closed self.old place }
        ensures next { self.new.next.items ≡ self.old.next.items }
        ensures stack { self.new.stack.items ≡ take place self.old.stack.items }
        ensures path { self.old.path.items ≡ self.new.path.items ++ place ∷ [] }
        ensures bounds { self.old.bounds.items ≡ self.new.bounds.items ++ place ∷ [] }
        ensures roots { IfOk result (λ _. self.new.roots.items ≡ self.old.roots.items ++ node ∷ []) }
    {
        set_all(
            &mut self.marks,
            &self.stack[place..],
            Mark::Done(self.roots.len()),
        );
        self.stack.truncate(place);
        self.path.pop();
        self.bounds.pop();
        self.roots.push(node)?;
        Ok(())
    }

    // The first way of a node that isn't followed yet.
    fn next_way(&self, ways: &[Way], node: u32) -> Option<Way>
        requires { node < length self.now.next.items }
        ensures next { IsNextWay ways.now node (slice_index self.now.next.items node) result }
        ensures short { IsSome result → slice_index self.now.next.items node + 1 < 2 ^ 64 }
    {
        match ways.get(self.next[node as usize]) {
            Some(way) if way.source == node => Some(*way),
            _ => None,
        }
    }

    fn is_bound(&self, place: usize) -> bool
        ensures { IsBound self.now.bounds.items place result }
    {
        self.bounds.last().copied() == Some(place)
    }

    fn bound_after(&self, place: usize) -> Option<usize>
        ensures { IsBoundAfter self.now.bounds.items place result }
    {
        match self.bounds.last().copied() {
            Some(bound) if place < bound => Some(bound),
            _ => None,
        }
    }

    // One round at the last node of the path.
    pub fn advance(&mut self, ways: &[Way], place: usize) -> Result<(), AllocError>
        requires steps { AreSteps way_ends (length self.old.marks.items) ways.now }
        requires search { IsSearch ways.now self.old }
        requires last { slice_get self.old.path.items (length self.old.path.items - 1) ≡ Some place }
        ensures { IfOk result (λ _. IsRound ways.now self.old self.new) }
    {
        let node = self.stack[place];
        match self.next_way(ways, node) {
            None if self.is_bound(place) => self.close(place, node)?,
            None => self.leave(place),
            Some(way) => match self.marks[way.target as usize] {
                Mark::New => {
                    self.enter(way.target)?;
                    self.follow(node);
                }
                Mark::Done(_) => self.follow(node),
                Mark::Open(first) => match self.bound_after(first) {
                    Some(bound) => self.merge(bound),
                    None => self.follow(node),
                },
            },
        }
        Ok(())
    }
}
