ghost use Rattle.std.specs.Prelude.{◌≡◌, ◌<◌, None, Some, MatchOption, length};
ghost use Rattle.wc_core.specs.Features.{value_of};
ghost use Rattle.wc_core.specs.Inner.Shelves.{copy_of, is_shelf, shelf_filled, shelf_taken};

use std::marker::Model;
use std::sync::Arc;
use wc_model::Kind;

/// A value of the store under its kind and the kind's stamp: one copy for each session, at its number.
#[derive(Drop)]
pub struct Shelf<V> {
    kind: Kind,
    stamp: u64,
    copies: Vec<Option<Arc<V>>>,
}

impl<V> Model for Shelf<V> {
    ghost use Rattle.std.specs.Global.{Global};
    ghost use Rattle.std.specs.declared.sync.Arc.{Arc};
    ghost use Rattle.wc_core.specs.Inner.Shelves.{KnownShelf};

    ghost Value = { KnownShelf (Arc V Global) };

    ghost view = { λ s. record { kind = s.kind; stamp = s.stamp; copies = s.copies.items } };
}

impl<V> Shelf<V> {
    pub fn new(kind: Kind, stamp: u64, copies: Vec<Option<Arc<V>>>) -> Self
        ensures { result ≡ record { kind = kind; stamp = stamp; copies = copies.items } }
    {
        Shelf {
            kind,
            stamp,
            copies,
        }
    }

    pub fn kind(&self) -> Kind
        ensures { result ≡ self.now.kind }
    {
        self.kind
    }

    pub fn is(&self, kind: Kind, stamp: u64) -> bool
        ensures { result ≡ is_shelf kind stamp self.now }
    {
        self.kind.number() == kind.number() && self.stamp == stamp
    }

    pub fn get(&self, session: usize) -> Option<&V>
        ensures { MatchOption result (value_of (copy_of session self.now) ≡ None) (λ v. value_of (copy_of session self.now) ≡ Some v.now) }
    {
        match self.copies.get(session) {
            Some(Some(copy)) => Some(copy),
            _ => None,
        }
    }

    /// Takes the copy of a session out of its place.
    pub fn take_copy(&mut self, session: usize) -> Option<Arc<V>>
        requires { session < length self.old.copies }
        ensures copy { result ≡ copy_of session self.old }
        ensures rest { self.new ≡ shelf_taken session self.old }
    {
        self.copies[session].take()
    }

    /// Puts a copy into the place of a session where it is empty.
    pub fn put_copy(&mut self, session: usize, copy: Arc<V>)
    where
        V: Drop,
        requires { session < length self.old.copies }
        ensures { self.new ≡ shelf_filled session copy self.old }
    {
        if self.copies[session].is_none() {
            self.copies[session] = Some(copy);
        }
    }
}
