ghost use Rattle.std.specs.Prelude.{◌^◌};
ghost use Rattle.wc_ages.specs.AgeLaws.{must_keeps, must_refl, must_trans};
ghost use Rattle.wc_ages.specs.States.{must_ages, must_rank};
ghost use Rattle.wc_model.specs.Cache.Ages.{Ages, MustPrecise, must_accessed};

use crate::Must;
use std::alloc::AllocError;
use wc_fix::Lattice;

impl Lattice for Must {
    ghost State = { Ages };

    ghost state = { must_ages };

    ghost shape = { λ m. m.ways };

    ghost lines = { λ m. 2 ^ 32 };

    ghost rank = { must_rank };

    ghost precise = { MustPrecise };

    ghost accessed = { must_accessed };

    fn join(&mut self, other: &Self) -> bool {
        self.raise(other)
    }

    fn access(&mut self, line: u32) {
        Must::access(self, line);
    }

    fn copy(&self) -> Result<Self, AllocError> {
        Ok(self.twin())
    }

    fn rank(&self) -> u64 {
        self.room()
    }

    ghost precise_refl = { must_refl };

    ghost precise_trans = { must_trans };

    ghost access_keeps = { must_keeps };
}
