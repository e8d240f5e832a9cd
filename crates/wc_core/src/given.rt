ghost use Rattle.std.specs.Prelude.{◌≡◌, All, None, Some, is_some, IfOk, MatchOption, length, slice_set};
ghost use Rattle.wc_core.specs.Features.{arc_at, value_at};

use std::alloc::{AllocError, Global};
use std::marker::Model;
use std::sync::Arc;
use wc_model::Kind;

// Kinds are numbers from 1 to 64.
const PLACES: usize = 65;

/// The values that a run may use, each at the number of its kind.
#[derive(Debug, Drop)]
pub struct Given<V> {
    had: Vec<Option<Arc<V>>>,
}

impl<V> Model for Given<V> {
    ghost use Rattle.std.specs.Prelude.{◌≡◌, List, Option, length};
    ghost use Rattle.std.specs.Global.{Global};
    ghost use Rattle.std.specs.declared.sync.Arc.{Arc};

    ghost Value = { List (Option (Arc V Global)) };

    ghost view = { λ g. g.had.items };

    ghost invariant = { λ g. length g.had.items ≡ 65 };
}

impl<V> Given<V> {
    /// No value of any kind.
    pub fn new(alloc: Global) -> Result<Given<V>, AllocError>
    where
        V: Drop,
        ensures { IfOk result (λ g. All (λ c. c ≡ None) g) }
    {
        let mut had = Vec::with_capacity(alloc, PLACES)?;
        for _place in 0..PLACES {
            had.push(None)?;
        }
        Ok(Given { had })
    }

    pub fn get(&self, kind: Kind) -> Option<&V>
        ensures { MatchOption result (value_at kind self.now ≡ None) (λ v. value_at kind self.now ≡ Some v.now) }
    {
        match &self.had[kind.number() as usize] {
            Some(copy) => Some(copy),
            None => None,
        }
    }

    pub(crate) fn has(&self, kind: Kind) -> bool
        ensures { result ≡ is_some (arc_at kind self.now) }
    {
        self.had[kind.number() as usize].is_some()
    }

    // There is a place for each kind.
    pub(crate) fn is_wide(&self)
        ensures { length self.now ≡ 65 }
    {
        let _had = &self.had;
    }

    pub(crate) fn take(&mut self, kind: Kind) -> Option<Arc<V>>
        ensures value { result ≡ arc_at kind self.old }
        ensures rest { self.new ≡ slice_set self.old kind None }
    {
        self.had[kind.number() as usize].take()
    }

    pub(crate) fn hold(&mut self, kind: Kind, copy: Arc<V>)
    where
        V: Drop,
        ensures { self.new ≡ slice_set self.old kind (Some copy) }
    {
        self.had[kind.number() as usize] = Some(copy);
    }
}
