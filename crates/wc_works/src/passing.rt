ghost use Rattle.std.specs.Prelude.{◌≡◌, Ok, Err, MatchResult};
ghost use Rattle.wc_base.specs.declared.troubles.Trouble.TheVariants.{Memory};
ghost use Rattle.wc_model.specs.Workspace.Feature.{joined};

use std::alloc::AllocError;
use wc_base::{Fault, Trouble};

// Two required features: the first one that is a fault, in their order, is the fault of both.
pub(crate) fn both<A: Drop, B: Drop>(
    first: Result<A, Fault>,
    second: Result<B, Fault>,
) -> Result<(A, B), Fault>
    ensures { result ≡ joined first second }
{
    match (first, second) {
        (Ok(a), Ok(b)) => Ok((a, b)),
        (Ok(_), Err(fault)) => Err(fault),
        (Err(fault), _) => Err(fault),
    }
}

// The answer of a phase that refuses nothing.
pub(crate) fn unrefused<T>(made: Result<T, AllocError>) -> Result<T, Trouble>
    ensures { MatchResult made (λ value. result ≡ Ok value) (λ error. result ≡ Err (Memory error)) }
{
    match made {
        Ok(value) => Ok(value),
        Err(error) => Err(Trouble::Memory(error)),
    }
}
