use wc_base::Addr;

/// What an instruction does, as far as its cycles depend on it.
#[derive(Clone, Copy, Debug, PartialEq, Eq)]
pub enum Class {
    Alu,
    Mul,
    Div,
    Load,
    Store,
    Multi,
    Branch,
    System,
}

/// Where an instruction may lead beside the next address.
#[derive(Clone, Copy, Debug, PartialEq, Eq)]
pub enum Control {
    Next,
    Jump(Addr),
    Call(Addr),
    Return,
    IndirectJump,
    IndirectCall,
}

/// One A32 instruction. `moved` counts the registers of a load or store multiple; `always` is false where
/// a condition may let the control pass on to the next address.
#[derive(Clone, Copy, Debug, PartialEq, Eq)]
pub struct Insn {
    pub class: Class,
    pub moved: u8,
    pub control: Control,
    pub always: bool,
}
