use crate::{Table, Text};
use wc_base::Addr;

/// One summand of a flow inequality. `within` has the call instructions, outermost first, through which a
/// position has to be called to count; without any, every position at the address counts.
#[derive(Debug, Drop, Clone, PartialEq)]
pub enum Term {
    Constant(u32),
    Visits {
        times: u32,
        at: Addr,
        within: Targets,
    },
}

/// The summands of one side of a flow inequality.
pub type Sum = Table<Term>;

/// A list of addresses: the targets of an indirect jump or call, or the call instructions of a call string.
pub type Targets = Table<Addr>;

/// A flow fact of the F4 profile: what the user knows of the program's control flow. `within` narrows a loop
/// bound to one way of being called, as in a term of a limit.
#[derive(Debug, Drop, Clone, PartialEq)]
pub enum Fact {
    Loop {
        at: Addr,
        bound: Option<u32>,
        within: Targets,
    },
    Multibranch {
        at: Addr,
        to: Targets,
    },
    Multicall {
        at: Addr,
        to: Targets,
    },
    Noreturn {
        at: Addr,
    },
    Checksum {
        name: Text,
        value: u32,
    },
    Limit {
        left: Sum,
        right: Sum,
    },
}

/// Flow facts, each with the number of the edit that added it.
pub type Facts = Table<(u64, Fact)>;
