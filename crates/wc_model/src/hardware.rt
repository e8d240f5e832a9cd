//! The hardware that is taken where none is stated, and the tests by which an edit of the hardware touches a part.
ghost use Rattle.std.specs.Prelude.{◌≡◌};
ghost use Rattle.wc_model.specs.Workspace.Hardware.{default_hardware as default_hardware_of, same_cycles as same_cycles_of, same_cache as same_cache_of};

use crate::{Cache, Cycles, Hardware};

/// Every class takes one cycle, nothing else takes any, and there is no cache.
pub fn default_hardware() -> Hardware
    ensures { result ≡ default_hardware_of }
{
    Hardware {
        cycles: Cycles {
            alu: 1,
            mul: 1,
            div: 1,
            load: 1,
            store: 1,
            multi: 1,
            branch: 1,
            system: 1,
            taken: 0,
            per_register: 0,
            hit: 0,
            miss: 0,
        },
        cache: None,
    }
}

/// Whether the cycles are the same.
pub fn same_cycles(a: &Cycles, b: &Cycles) -> bool
    ensures { result ≡ same_cycles_of a.now b.now }
{
    a == b
}

/// Whether the caches are the same, or there is none.
pub fn same_cache(a: &Option<Cache>, b: &Option<Cache>) -> bool
    ensures { result ≡ same_cache_of a.now b.now }
{
    a == b
}
