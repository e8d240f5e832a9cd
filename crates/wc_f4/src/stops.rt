ghost use Rattle.std.specs.Prelude.{◌≡◌, alloc_error};
ghost use Rattle.wc_f4.specs.declared.stops.Stop.TheVariants.{Memory};

use std::alloc::{AllocError, AllocFailed};

/// Why reading stopped: the place of a wrong token or of a name that isn't found, or want of memory.
#[derive(Clone, Copy)]
pub enum Stop {
    Bad(usize),
    Unknown(usize),
    Memory(AllocError),
}

impl From<AllocError> for Stop {
    ghost from_gives = { λ error stop. stop ≡ Memory error };

    fn from(error: AllocError) -> Self {
        Stop::Memory(error)
    }
}

impl<T: Drop> From<AllocFailed<T>> for Stop {
    ghost from_gives = { λ _ stop. stop ≡ Memory alloc_error };

    fn from(_: AllocFailed<T>) -> Self {
        Stop::Memory(AllocError)
    }
}
