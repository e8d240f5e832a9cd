ghost use Rattle.std.specs.Prelude.{◌≡◌};
ghost use Rattle.wc_f4.specs.Places.{branching_fact};

use wc_base::Addr;
use wc_model::{Fact, Targets};

/// What an indirect instruction does: it jumps or calls.
#[derive(Clone, Copy)]
pub enum Branching {
    Jump,
    Call,
}

/// The fact that states where it may lead.
pub fn branching_fact(kind: Branching, at: Addr, to: Targets) -> Fact
    ensures { result ≡ branching_fact kind at to }
{
    match kind {
        Branching::Jump => Fact::Multibranch { at, to },
        Branching::Call => Fact::Multicall { at, to },
    }
}
