use std::alloc::AllocError;
use thiserror::Error;
use wc_model::Kind;

/// Why a list of descriptions is no registry. Each names the least such kind: one that is provided twice, one that is
/// required and not provided, or one that requires itself, directly or through others.
#[derive(Clone, Copy, Debug, PartialEq, Error)]
pub enum RegistryFault {
    #[error("kind {0:?} is provided twice")]
    Double(Kind),
    #[error("kind {0:?} is required and not provided")]
    Missing(Kind),
    #[error("kind {0:?} requires itself")]
    Cycle(Kind),
    #[error("out of memory")]
    Memory(AllocError),
}

impl From<AllocError> for RegistryFault {
    ghost use Rattle.std.specs.Prelude.{◌≡◌};
    ghost use Rattle.wc_registry.specs.declared.faults.RegistryFault.TheVariants.{Memory};

    ghost from_gives = { λ error fault. fault ≡ Memory error };

    fn from(error: AllocError) -> RegistryFault {
        RegistryFault::Memory(error)
    }
}
