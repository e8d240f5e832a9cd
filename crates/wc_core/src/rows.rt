ghost use Rattle.std.specs.Prelude.{◌≡◌, ◌<◌, ◌≤◌, [], None, Some, All, IfOk, MatchOption, length, position};
ghost use Rattle.std.specs.List.{list_any};
ghost use Rattle.wc_core.specs.Features.{value_of};
ghost use Rattle.wc_core.specs.Inner.Touching.{row_cut, touches_kind};
ghost use Rattle.wc_model.specs.Workspace.Closures.{closure};
ghost use Rattle.wc_core.specs.Inner.Shelves.{find_copy, is_shelf, row_filled, row_longer, row_taken};

use crate::shelves::Shelf;
use crate::touching::{Touched, is_touched};
use std::alloc::{AllocError, Global};
use std::marker::Model;
use std::sync::Arc;
use wc_model::Kind;
use wc_registry::Registry;

/// The values that the store has for one name, in the order in which they were kept.
#[derive(Drop)]
pub struct Row<V> {
    shelves: Vec<Shelf<V>>,
}

impl<V> Model for Row<V> {
    ghost use Rattle.std.specs.Global.{Global};
    ghost use Rattle.std.specs.Vec.{vec_capacity};
    ghost use Rattle.std.specs.declared.sync.Arc.{Arc};
    ghost use Rattle.wc_core.specs.Inner.Shelves.{KnownRow};

    ghost Value = { KnownRow (Arc V Global) };

    ghost view = { λ r. record { shelves = r.shelves.items; room = vec_capacity r.shelves } };
}

// Eleven kinds have room.
const KINDS: usize = 11;

impl<V> Row<V> {
    pub fn new(alloc: Global) -> Result<Row<V>, AllocError>
        ensures { IfOk result (λ r. (r.shelves ≡ []) × (11 ≤ r.room)) }
    {
        let shelves = Vec::with_capacity(alloc, KINDS)?;
        Ok(Row { shelves })
    }

    fn place(&self, kind: Kind, stamp: u64) -> Option<usize>
        ensures { result ≡ position (is_shelf kind stamp) self.now.shelves }
    {
        self.shelves.iter().position(|shelf| shelf.is(kind, stamp))
    }

    pub fn has(&self, kind: Kind, stamp: u64) -> bool
        ensures { result ≡ list_any (is_shelf kind stamp) self.now.shelves }
    {
        self.shelves.iter().any(|shelf| shelf.is(kind, stamp))
    }

    pub fn get(&self, kind: Kind, stamp: u64, session: usize) -> Option<&V>
        ensures { MatchOption result (value_of (find_copy kind stamp session self.now.shelves) ≡ None) (λ v. value_of (find_copy kind stamp session self.now.shelves) ≡ Some v.now) }
    {
        match self.place(kind, stamp) {
            Some(place) => self.shelves[place].get(session),
            None => None,
        }
    }

    pub fn take(&mut self, kind: Kind, stamp: u64, session: usize) -> Option<Arc<V>>
        requires { All (λ s. session < length s.copies) self.old.shelves }
        ensures copy { result ≡ find_copy kind stamp session self.old.shelves }
        ensures rest { self.new ≡ row_taken kind stamp session self.old }
    {
        match self.place(kind, stamp) {
            Some(place) => self.shelves[place].take_copy(session),
            None => None,
        }
    }

    pub fn put_back(&mut self, kind: Kind, stamp: u64, session: usize, copy: Arc<V>)
    where
        V: Drop,
        requires { All (λ s. session < length s.copies) self.old.shelves }
        ensures { self.new ≡ row_filled kind stamp session copy self.old }
    {
        if let Some(place) = self.place(kind, stamp) {
            self.shelves[place].put_copy(session, copy);
        }
    }

    pub fn keep(&mut self, shelf: Shelf<V>)
        requires { length self.old.shelves < self.old.room }
        ensures { self.new ≡ row_longer shelf self.old }
    {
        self.shelves.push_reserved(shelf);
    }

    /// Takes out the values of the kinds that an edit touches.
    pub fn cut(&mut self, registry: &Registry, touched: Touched)
    where
        V: Drop,
        ensures { self.new ≡ row_cut (λ k. touches_kind touched (closure registry.now k)) self.old }
    {
        self.shelves
            .retain(|shelf| !is_touched(registry, shelf.kind(), touched));
    }
}
