ghost use Rattle.std.specs.Prelude.{◌≡◌, ℕ, ◌==◌, ◌&&◌, not, true, false, length};
ghost use Rattle.std.specs.List.{list_all};
ghost use Rattle.wc_model.specs.Workspace.Closures.{has_kind};
ghost use Rattle.wc_registry.specs.Inner.KindSets.{Adds, IsLeastOf, holds};

use std::marker::Model;
use wc_model::Kind;

// Kinds are numbers from 1 to 64.
const PLACES: usize = 65;

// A set of kinds: a mark for each number.
#[derive(Clone, Copy, Debug)]
pub struct KindSet {
    marks: [bool; 65],
}

impl Model for KindSet {
    ghost use Rattle.std.specs.Prelude.{◌≡◌, Bool, false, List, length};
    ghost use Rattle.wc_registry.specs.Inner.KindSets.{holds};

    ghost Value = { List Bool };

    ghost view = { λ s. s.marks };

    ghost invariant = { λ s. (length s.marks ≡ 65) × (holds s.marks 0 ≡ false) };

    ghost inverse = { λ marks. record { marks = marks } };
}

impl KindSet {
    pub fn empty() -> KindSet
        ensures empty { (k : ℕ) → holds result k ≡ false }
        ensures counted { length result ≡ 65 }
    {
        KindSet {
            marks: [false; PLACES],
        }
    }

    pub fn has(&self, kind: Kind) -> bool
        ensures { result ≡ holds self.now kind }
    {
        self.marks[kind.number() as usize]
    }

    pub fn add(&mut self, kind: Kind)
        ensures adds { Adds (λ k. kind == k) self.old self.new }
        ensures counted { length self.new ≡ 65 }
    {
        self.marks[kind.number() as usize] = true;
    }

    pub fn has_all(&self, kinds: &[Kind]) -> bool
        ensures { result ≡ list_all (λ k. holds self.now k) kinds.now }
    {
        kinds.iter().all(|kind| self.has(*kind))
    }

    pub fn add_all(&mut self, kinds: &[Kind])
        ensures adds { Adds (λ k. has_kind k kinds.now) self.old self.new }
        ensures counted { length self.new ≡ 65 }
    {
        let _marks = &self.marks;
        for kind in kinds {
            self.add(*kind);
        }
    }

    // Adds those of some kinds that another set doesn't have.
    pub fn add_unless(&mut self, kinds: &[Kind], other: &KindSet)
        ensures { Adds (λ k. has_kind k kinds.now && not (holds other.now k)) self.old self.new }
    {
        for kind in kinds {
            if !other.has(*kind) {
                self.add(*kind);
            }
        }
    }

    pub fn least(&self) -> Option<Kind>
        ensures { IsLeastOf (λ k. holds self.now k ≡ true) result }
    {
        for number in 1..65u8 {
            if self.marks[number as usize] {
                return Kind::new(number);
            }
        }
        None
    }
}
