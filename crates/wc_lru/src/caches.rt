ghost use Rattle.std.specs.Prelude.{◌≡◌, ℕ, IfOk, []};
ghost use Rattle.wc_model.specs.Cache.Lru.{cache_fetched, is_hit};
ghost use Rattle.wc_lru.specs.Filled.{held_in};

use crate::sets::Set;
use std::alloc::{AllocError, Global};
use std::marker::Model;
use wc_base::Addr;
use wc_model::Cache;

/// A cache with what it holds: of each set the lines, the youngest first.
#[derive(Debug, Drop)]
pub struct Lru {
    cache: Cache,
    sets: Vec<Set>,
}

impl Model for Lru {
    ghost use Rattle.std.specs.Prelude.{◌≡◌, ◌≤◌, All, length, map};
    ghost use Rattle.wc_lru.specs.Filled.{Filled};
    ghost use Rattle.wc_lru.specs.Inner.Sets.{lines_of};

    ghost Value = { Filled };

    ghost view = { λ l. record { cache = l.cache; sets = map lines_of l.sets.items } };

    ghost invariant = { λ l. (length l.sets.items ≡ l.cache.sets) × All (λ s. s.count ≤ l.cache.ways) l.sets.items };
}

impl Lru {
    /// The cache without any line.
    pub fn new(alloc: Global, cache: &Cache) -> Result<Lru, AllocError>
        ensures cache { IfOk result (λ l. l.cache ≡ cache.now) }
        ensures empty { IfOk result (λ l. (s : ℕ) → held_in l s ≡ []) }
    {
        Ok(Lru {
            cache: *cache,
            sets: vec![in alloc; Set::empty(); cache.sets as usize]?,
        })
    }

    /// One access, and whether it hits.
    pub fn fetch(&mut self, at: Addr) -> bool
        ensures cache { self.new.cache ≡ self.old.cache }
        ensures hit { result ≡ is_hit self.old.cache at (held_in self.old) }
        ensures held { held_in self.new ≡ cache_fetched self.old.cache at (held_in self.old) }
    {
        let line = at / self.cache.line as u32;
        let set = line % self.cache.sets as u32;
        self.sets[set as usize].fetch(self.cache.ways, line)
    }
}
