ghost use Rattle.std.specs.Prelude.{◌≡◌};

use crate::Fault;
use std::alloc::{AllocError, AllocFailed};

/// Why an input has no reading: a fault of its own, or want of memory.
#[derive(Clone, Copy, Debug, PartialEq, Eq)]
pub enum Trouble {
    Fault(Fault),
    Memory(AllocError),
}

impl From<Fault> for Trouble {
    ghost use Rattle.wc_base.specs.declared.troubles.Trouble.TheVariants.{Fault as Refused};

    ghost from_gives = { λ fault trouble. trouble ≡ Refused fault };

    fn from(fault: Fault) -> Trouble {
        Trouble::Fault(fault)
    }
}

impl From<AllocError> for Trouble {
    ghost use Rattle.wc_base.specs.declared.troubles.Trouble.TheVariants.{Memory};

    ghost from_gives = { λ error trouble. trouble ≡ Memory error };

    fn from(error: AllocError) -> Trouble {
        Trouble::Memory(error)
    }
}

impl<T: Drop> From<AllocFailed<T>> for Trouble {
    ghost use Rattle.wc_base.specs.Troubles.{IsMemory};

    ghost from_gives = { λ _ trouble. IsMemory trouble };

    fn from(_refused: AllocFailed<T>) -> Trouble {
        Trouble::Memory(AllocError)
    }
}
