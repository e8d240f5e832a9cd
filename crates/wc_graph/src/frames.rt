use wc_base::Addr;

/// An open call, by the number of the frame below it; the function at the start has none below.
#[derive(Clone, Copy, Debug, PartialEq, Eq, Hash)]
pub struct Frame {
    pub parent: Option<u32>,
    pub returns: Addr,
    pub callee: Addr,
}

/// A position: its innermost frame, by its number, and an address.
#[derive(Clone, Copy, Debug, PartialEq, Eq, Hash)]
pub struct Place {
    pub frame: u32,
    pub pc: Addr,
}

/// A way out of an instruction.
#[derive(Clone, Copy, Debug)]
pub enum Way {
    Go(Addr),
    Call { callee: Addr, returns: Addr },
    Leave,
}

/// A way out of an instruction, and whether its step is a taken one.
#[derive(Clone, Copy, Debug)]
pub struct Turn {
    pub way: Way,
    pub taken: bool,
}

/// A step out of a position: the number of the position that it leads to, nothing for the exit.
#[derive(Clone, Copy, Debug)]
pub struct Leap {
    pub target: Option<u32>,
    pub taken: bool,
}
