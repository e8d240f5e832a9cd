ghost use Rattle.std.specs.Prelude.{length};
ghost use Rattle.wc_ages.specs.AgeLaws.{may_keeps, may_refl, may_trans};
ghost use Rattle.wc_ages.specs.States.{may_ages, may_rank};
ghost use Rattle.wc_model.specs.Cache.Ages.{Ages, MayPrecise, may_accessed};

use crate::May;
use std::alloc::AllocError;
use wc_fix::Lattice;

impl Lattice for May {
    ghost State = { Ages };

    ghost state = { may_ages };

    ghost shape = { λ m. m.ways };

    ghost lines = { λ m. length m.ages };

    ghost rank = { may_rank };

    ghost precise = { MayPrecise };

    ghost accessed = { may_accessed };

    fn join(&mut self, other: &Self) -> bool {
        self.lower(other)
    }

    fn access(&mut self, line: u32) {
        May::access(self, line);
    }

    fn copy(&self) -> Result<Self, AllocError> {
        self.twin()
    }

    fn rank(&self) -> u64 {
        self.room()
    }

    ghost precise_refl = { may_refl };

    ghost precise_trans = { may_trans };

    ghost access_keeps = { may_keeps };
}
