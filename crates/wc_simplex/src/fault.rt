use std::alloc::AllocError;
use wc_model::Ray;

/// Why a system has no solution: a number left -(2^127 - 1) to 2^127 - 1; 5,000 pivots were made and another was due;
/// no counts are feasible, as the ray shows; or memory ran out.
#[derive(Debug, Drop)]
pub enum SolveFault {
    NumberLimit,
    PivotLimit,
    NoPath(Ray),
    Memory(AllocError),
}

impl From<AllocError> for SolveFault {
    ghost use Rattle.std.specs.Prelude.{◌≡◌};
    ghost use Rattle.wc_simplex.specs.declared.fault.SolveFault.TheVariants.{Memory};

    ghost from_gives = { λ error fault. fault ≡ Memory error };

    fn from(error: AllocError) -> SolveFault {
        SolveFault::Memory(error)
    }
}
