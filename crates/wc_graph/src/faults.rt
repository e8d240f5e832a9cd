ghost use Rattle.std.specs.Prelude.{◌↔◌, IsTrue, List, ◌++◌, ◌∷◌, []};
ghost use Rattle.wc_graph.specs.declared.faults.Faulty.{Faulty};
ghost use Rattle.wc_graph.specs.Inner.Faults.{IsLeast, IsUpTo};

use wc_base::{Addr, Fault, number};

/// A fault and the address of its position.
#[derive(Clone, Copy, Debug)]
pub struct Faulty {
    pub at: Addr,
    pub fault: Fault,
}

// Whether a fault counts before another, or is the same.
fn counts_first(one: &Faulty, other: &Faulty) -> bool
    ensures { IsTrue result ↔ IsUpTo one.now other.now }
{
    if one.at == other.at {
        number(&one.fault) <= number(&other.fault)
    } else {
        one.at < other.at
    }
}

/// The fault that counts first, by address and then by number.
pub fn lesser(least: Option<Faulty>, faulty: Faulty) -> Option<Faulty>
    ensures { (faults : List Faulty) → IsLeast faults least → IsLeast (faults ++ faulty ∷ []) result }
{
    let Some(other) = least else {
        return Some(faulty);
    };
    if counts_first(&faulty, &other) {
        return Some(faulty);
    }
    least
}
