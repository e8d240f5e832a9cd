ghost use Rattle.std.specs.Prelude.{◌≡◌, ◌<◌, ◌≤◌, ◌+◌, ◌∷◌, [], ◌++◌, true, false, map, length, None, Some, MatchOption, OnOk};
ghost use Rattle.wc_core.specs.Inner.Lines.{AllWide, HasPlace, at_name, copy_for, kept, row_of};
ghost use Rattle.wc_core.specs.Inner.Shelves.{row_filled, row_longer, row_taken};
ghost use Rattle.wc_core.specs.Inner.Touching.{lines_cut, touches_kind};
ghost use Rattle.wc_model.specs.Workspace.Closures.{closure};
ghost use Rattle.wc_model.specs.Workspace.History.{key_with};
ghost use Rattle.wc_model.specs.Workspace.States.{has_row, in_store, with_room};
ghost use Rattle.wc_core.specs.Features.{value_of};

use crate::rows::Row;
use crate::shelves::Shelf;
use crate::touching::Touched;
use indexmap::IndexMap;
use std::alloc::{AllocError, Global};
use std::marker::Model;
use std::sync::Arc;
use wc_model::Kind;
use wc_registry::Registry;

// The store has rows for so many names.
const ROWS: usize = 32;

/// The values that are kept, by the name that was asked for. The row that was made earliest stands first.
#[derive(Drop)]
pub struct Store<V> {
    rows: IndexMap<Vec<u8>, Row<V>>,
}

impl<V> Model for Store<V> {
    ghost use Rattle.std.specs.Global.{Global};
    ghost use Rattle.std.specs.declared.sync.Arc.{Arc};
    ghost use Rattle.indexmap.specs.IndexMap.{spare};
    ghost use Rattle.wc_core.specs.Inner.Lines.{AreFew, KnownStore, lines_of, names};

    ghost Value = { KnownStore (Arc V Global) };

    ghost view = { λ s. record { lines = lines_of s.rows.entries; spare = spare s.rows } };

    ghost invariant = { λ s. AreFew (names (lines_of s.rows.entries)) };
}

impl<V> Store<V> {
    pub fn new(alloc: Global) -> Store<V>
        ensures { result.lines ≡ [] }
    {
        Store {
            rows: IndexMap::new(alloc),
        }
    }

    /// Makes room for so many further names.
    pub fn reserve(&mut self, names: usize) -> Result<(), AllocError>
        ensures lines { self.new.lines ≡ self.old.lines }
        ensures more { self.old.spare ≤ self.new.spare }
        ensures room { OnOk result (names ≤ self.new.spare) }
    {
        self.rows.reserve(names)
    }

    pub fn has(&self, name: &[u8], kind: Kind, stamp: u64) -> bool
        ensures { result ≡ in_store (key_with kind name.now stamp) (map row_of self.now.lines) }
    {
        match self.rows.get(name) {
            Some(row) => row.has(kind, stamp),
            None => false,
        }
    }

    /// The value that a session has a copy of.
    pub fn get(&self, name: &[u8], kind: Kind, stamp: u64, session: usize) -> Option<&V>
        ensures { MatchOption result (value_of (copy_for name.now kind stamp session self.now.lines) ≡ None) (λ v. value_of (copy_for name.now kind stamp session self.now.lines) ≡ Some v.now) }
    {
        match self.rows.get(name) {
            Some(row) => row.get(kind, stamp, session),
            None => None,
        }
    }

    /// Takes out the copy of a session.
    pub fn take(&mut self, name: &[u8], kind: Kind, stamp: u64, session: usize) -> Option<Arc<V>>
        requires { AllWide session self.old.lines }
        ensures copy { result ≡ copy_for name.now kind stamp session self.old.lines }
        ensures rest { self.new.lines ≡ at_name name.now (row_taken kind stamp session) self.old.lines }
        ensures spare { self.new.spare ≡ self.old.spare }
    {
        match self.rows.get_mut(name) {
            Some(row) => row.take(kind, stamp, session),
            None => None,
        }
    }

    /// Puts back the copy of a session where its key still stands and its place is empty.
    pub fn put_back(&mut self, name: &[u8], kind: Kind, stamp: u64, session: usize, copy: Arc<V>)
    where
        V: Drop,
        requires { AllWide session self.old.lines }
        ensures rest { self.new.lines ≡ at_name name.now (row_filled kind stamp session copy) self.old.lines }
        ensures spare { self.new.spare ≡ self.old.spare }
    {
        if let Some(row) = self.rows.get_mut(name) {
            row.put_back(kind, stamp, session, copy);
        }
    }

    // Takes out the row that was made earliest where there is no place for a further one.
    fn make_room(&mut self)
    where
        V: Drop,
        ensures lines { self.new.lines ≡ with_room self.old.lines }
        ensures few { length self.new.lines < 32 }
        ensures spare { self.old.spare ≤ self.new.spare }
    {
        if ROWS <= self.rows.len() {
            let _earliest = self.rows.shift_remove_index(0);
        }
    }

    fn insert(&mut self, name: Vec<u8>, row: Row<V>)
    where
        V: Drop,
        requires absent { has_row name.items (map row_of self.old.lines) ≡ false }
        requires few { length self.old.lines < 32 }
        requires spare { 0 < self.old.spare }
        ensures lines { self.new.lines ≡ self.old.lines ++ record { name = name.items; row = row } ∷ [] }
        ensures spare { self.old.spare ≤ self.new.spare + 1 }
    {
        let _inserted = self.rows.insert(name, row);
    }

    // Keeps a value in the row of its name, or gives it back where there is none.
    fn add_to(&mut self, name: &[u8], shelf: Shelf<V>) -> Option<Shelf<V>>
        requires { HasPlace name.now self.old.lines }
        ensures spare { self.new.spare ≡ self.old.spare }
        ensures kept { MatchOption result ((has_row name.now (map row_of self.old.lines) ≡ true) × (self.new.lines ≡ at_name name.now (row_longer shelf) self.old.lines)) (λ s. (s ≡ shelf) × (has_row name.now (map row_of self.old.lines) ≡ false) × (self.new.lines ≡ self.old.lines)) }
    {
        match self.rows.get_mut(name) {
            Some(row) => {
                row.keep(shelf);
                None
            }
            None => Some(shelf),
        }
    }

    /// Keeps a value in the row of its name. A new name takes the row handed in, and for a 33rd one the row that was made
    /// earliest leaves.
    pub fn keep(&mut self, name: Vec<u8>, mut row: Row<V>, shelf: Shelf<V>)
    where
        V: Drop,
        requires place { HasPlace name.items self.old.lines }
        requires room { length row.shelves < row.room }
        requires spare { 0 < self.old.spare }
        ensures lines { self.new.lines ≡ kept name.items row shelf self.old.lines }
        ensures spare { self.old.spare ≤ self.new.spare + 1 }
    {
        if let Some(shelf) = self.add_to(name.as_slice(), shelf) {
            row.keep(shelf);
            self.make_room();
            self.insert(name, row);
        }
    }

    /// Takes out the values of the kinds that an edit touches. A row that is emptied so keeps its place.
    pub fn cut(&mut self, registry: &Registry, touched: Touched)
    where
        V: Drop,
        ensures lines { self.new.lines ≡ lines_cut (λ k. touches_kind touched (closure registry.now k)) self.old.lines }
        ensures spare { self.old.spare ≤ self.new.spare }
    {
        self.rows.retain(|_name, row| {
            row.cut(registry, touched);
            true
        });
    }
}
