ghost use Rattle.std.specs.Prelude.{◌≡◌, ◌+◌, ◌<◌, ◌^◌, ℕ, All, IfOk, Some, false, length};
ghost use Rattle.wc_model.specs.Flow.Walks.{AreSteps};
ghost use Rattle.wc_model.specs.Program.Graphs.{IsGraph};
ghost use Rattle.wc_nest.specs.Inner.Classes.{IsFresh, AreEnds};
ghost use Rattle.wc_nest.specs.Inner.Nestings.{AreNumbered, cleared, IsAdding, IsFinding, IsInnerOf, IsNesting, IsStepped};
ghost use Rattle.wc_nest.specs.declared.marking.Mark.TheVariants.{New};
ghost use Rattle.wc_nest.specs.Inner.Ways.{way_ends};

use crate::entering::{enter_all, loops};
use crate::heads::{Pair, heads_of, second_head};
use crate::inner::{back_all, inner_ways, loop_members};
use crate::listing::Listing;
use crate::marking::{Mark, new_list, set_all};
use crate::search::Search;
use crate::ways::Way;
use std::alloc::{AllocError, Global};
use wc_model::Graph;

// A level of the nest: the nodes that may be in a loop, by rising number, and the steps between them.
#[derive(Drop)]
pub struct Level {
    pub members: Vec<u32>,
    pub ways: Vec<Way>,
}

// Which classes of a level have a way inside, and the first two heads of each class.
#[derive(Drop)]
pub struct Found {
    pub looped: Vec<bool>,
    pub pairs: Vec<Pair>,
}

// What is left of a level: the next one, or the second head of a class.
#[derive(Drop)]
pub enum Next {
    Inner(Level),
    Second(u32),
}

// The nest so far, with what the search of each level needs.
#[derive(Drop)]
pub struct Nesting {
    pub search: Search,
    pub entered: Vec<bool>,
    pub listing: Listing,
    pub back: Vec<bool>,
}

impl Nesting {
    // One level is added to the nest.
    pub fn step(&mut self, alloc: Global, graph: &Graph, level: &Level) -> Result<Next, AllocError>
        requires graph { IsGraph graph.now }
        requires some { 0 < length level.now.ways.items }
        requires nesting { (k : ℕ) × IsNesting graph.now k self.old level.now }
        ensures { IfOk result (IsStepped graph.now level.now self.old self.new) }
    {
        let found = self.find(alloc, graph.start, level)?;
        if let Some(second) = second_head(&self.search.marks, &level.members, &found.pairs) {
            return Ok(Next::Second(second));
        }
        self.add(alloc, graph.start, level, &found)?;
        let inner = self.inner(alloc, graph.start, level, &found)?;
        self.clear(level);
        Ok(Next::Inner(inner))
    }

    fn find(&mut self, alloc: Global, start: u32, level: &Level) -> Result<Found, AllocError>
        requires steps { AreSteps way_ends (length self.old.search.marks.items) level.now.ways.items }
        requires known { All (λ p. p < length self.old.search.marks.items) level.now.members.items }
        requires ends { AreEnds level.now.ways.items level.now.members.items }
        requires fresh { IsFresh self.old.search }
        requires flags { length self.old.entered.items ≡ length self.old.search.marks.items }
        ensures { IfOk result (IsFinding start level.now self.old self.new) }
    {
        self.search.classes(&level.ways, &level.members)?;
        let count = self.search.roots.len();
        enter_all(&self.search.marks, &level.ways, &mut self.entered);
        let looped = loops(alloc, &self.search.marks, &level.ways, count)?;
        let pairs = heads_of(
            alloc,
            &self.search.marks,
            &self.entered,
            start,
            &level.members,
            count,
        )?;
        Ok(Found { looped, pairs })
    }

    fn add(
        &mut self,
        alloc: Global,
        start: u32,
        level: &Level,
        found: &Found,
    ) -> Result<(), AllocError>
        requires steps { AreSteps way_ends (length self.old.search.marks.items) level.now.ways.items }
        requires known { All (λ p. p < length self.old.search.marks.items) level.now.members.items }
        requires numbers { AreNumbered self.old.search level.now (length self.old.search.roots.items) }
        requires flags { length self.old.entered.items ≡ length self.old.search.marks.items }
        requires nodes { length self.old.listing.inside.items ≡ length self.old.search.marks.items }
        requires looped { length found.now.looped.items ≡ length self.old.search.roots.items }
        requires pairs { length found.now.pairs.items ≡ length self.old.search.roots.items }
        requires places { All (λ w. w.place < length self.old.back.items) level.now.ways.items }
        requires room { length self.old.listing.heads.items + length level.now.members.items < 2 ^ 32 }
        ensures { IfOk result (λ _. IsAdding start level.now found.now self.old self.new) }
    {
        self.listing.places = new_list(alloc, self.search.roots.len(), None)?;
        self.listing.list_all(
            &self.search.marks,
            &found.looped,
            &found.pairs,
            &level.members,
        )?;
        back_all(
            &self.search.marks,
            &self.entered,
            start,
            &level.ways,
            &mut self.back,
        );
        Ok(())
    }

    fn inner(
        &self,
        alloc: Global,
        start: u32,
        level: &Level,
        found: &Found,
    ) -> Result<Level, AllocError>
        requires steps { AreSteps way_ends (length self.now.search.marks.items) level.now.ways.items }
        requires known { All (λ p. p < length self.now.search.marks.items) level.now.members.items }
        requires flags { length self.now.entered.items ≡ length self.now.search.marks.items }
        requires numbers { AreNumbered self.now.search level.now (length found.now.looped.items) }
        ensures { IfOk result (IsInnerOf start level.now found.now self.now) }
    {
        let marks = &self.search.marks;
        let ways = inner_ways(alloc, marks, &self.entered, start, &level.ways)?;
        let members = loop_members(alloc, marks, &found.looped, &level.members)?;
        Ok(Level { members, ways })
    }

    // What the search of a level marked and flagged is taken back.
    fn clear(&mut self, level: &Level)
        requires known { All (λ p. p < length self.old.search.marks.items) level.now.members.items }
        requires flags { length self.old.entered.items ≡ length self.old.search.marks.items }
        ensures marks { self.new.search.marks.items ≡ cleared level.now self.old.search.marks.items New }
        ensures entered { self.new.entered.items ≡ cleared level.now self.old.entered.items false }
        ensures next { self.new.search.next ≡ self.old.search.next }
        ensures stack { self.new.search.stack ≡ self.old.search.stack }
        ensures bounds { self.new.search.bounds ≡ self.old.search.bounds }
        ensures path { self.new.search.path ≡ self.old.search.path }
        ensures listing { self.new.listing ≡ self.old.listing }
        ensures back { self.new.back ≡ self.old.back }
    {
        set_all(&mut self.search.marks, &level.members, Mark::New);
        set_all(&mut self.entered, &level.members, false);
    }
}
