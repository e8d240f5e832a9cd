ghost use Rattle.std.specs.Prelude.{◌≡◌, ◌+◌, ◌<◌, ◌≤◌, ◌^◌, All, length, IfOk};
ghost use Rattle.wc_nest.specs.Inner.Levels.{add_head, class_number, list_class, listed, Lists, ListsAll};

use crate::heads::Pair;
use crate::marking::{Mark, class_of};
use std::alloc::AllocError;
use wc_model::Head;

// The heads so far, per node the place of the head of its smallest loop so far, and per class of a level the place of
// its head.
#[derive(Drop)]
pub struct Listing {
    pub heads: Vec<Head>,
    pub inside: Vec<Option<u32>>,
    pub places: Vec<Option<u32>>,
}

impl Listing {
    // The heads of a level, in the order of the first members of their classes.
    pub fn list_all(
        &mut self,
        marks: &[Mark],
        looped: &[bool],
        pairs: &[Pair],
        members: &[u32],
    ) -> Result<(), AllocError>
        requires known { All (λ p. p < length marks.now) members.now }
        requires nodes { length self.old.inside.items ≡ length marks.now }
        requires numbers { All (λ p. class_number marks.now p < length self.old.places.items) members.now }
        requires loops { length looped.now ≡ length self.old.places.items }
        requires pairs { length pairs.now ≡ length self.old.places.items }
        requires room { length self.old.heads.items + length members.now < 2 ^ 32 }
        ensures { IfOk result (λ _. ListsAll marks.now looped.now pairs.now self.old self.new members.now) }
    {
        for node in members {
            self.list_one(marks, looped, pairs, *node)?;
        }
        Ok(())
    }

    fn list_one(
        &mut self,
        marks: &[Mark],
        looped: &[bool],
        pairs: &[Pair],
        node: u32,
    ) -> Result<(), AllocError>
        requires known { node < length marks.now }
        requires nodes { length self.old.inside.items ≡ length marks.now }
        requires number { class_number marks.now node < length self.old.places.items }
        requires loops { length looped.now ≡ length self.old.places.items }
        requires pairs { length pairs.now ≡ length self.old.places.items }
        requires room { length self.old.heads.items < 2 ^ 32 }
        ensures inside { length self.new.inside.items ≡ length self.old.inside.items }
        ensures places { length self.new.places.items ≡ length self.old.places.items }
        ensures heads { length self.new.heads.items ≤ length self.old.heads.items + 1 }
        ensures listed { IfOk result (λ _. Lists marks.now looped.now pairs.now self.old self.new node) }
    {
        let class = class_of(marks, node);
        if looped[class] {
            self.list_class(class, node, pairs[class].first)?;
        }
        Ok(())
    }

    fn list_class(&mut self, class: usize, node: u32, first: Option<u32>) -> Result<(), AllocError>
        requires node { node < length self.old.inside.items }
        requires class { class < length self.old.places.items }
        requires room { length self.old.heads.items < 2 ^ 32 }
        ensures inside { length self.new.inside.items ≡ length self.old.inside.items }
        ensures places { length self.new.places.items ≡ length self.old.places.items }
        ensures heads { length self.new.heads.items ≤ length self.old.heads.items + 1 }
        ensures listed { IfOk result (λ _. listed self.new ≡ list_class (listed self.old) class node first) }
    {
        self.add_head(class, node, first)?;
        self.inside[node as usize] = self.places[class];
        Ok(())
    }

    fn add_head(&mut self, class: usize, node: u32, first: Option<u32>) -> Result<(), AllocError>
        requires node { node < length self.old.inside.items }
        requires class { class < length self.old.places.items }
        requires room { length self.old.heads.items < 2 ^ 32 }
        ensures inside { length self.new.inside.items ≡ length self.old.inside.items }
        ensures places { length self.new.places.items ≡ length self.old.places.items }
        ensures heads { length self.new.heads.items ≤ length self.old.heads.items + 1 }
        ensures listed { IfOk result (λ _. listed self.new ≡ add_head (listed self.old) class node first) }
    {
        match (first, self.places[class]) {
            (Some(head), None) => {
                let place = self.heads.len() as u32;
                let parent = self.inside[node as usize];
                self.heads.push(Head { node: head, parent })?;
                self.places[class] = Some(place);
            }
            _ => {}
        }
        Ok(())
    }
}
