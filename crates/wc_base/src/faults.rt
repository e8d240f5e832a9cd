ghost use Rattle.std.specs.Prelude.{◌≡◌};
ghost use Rattle.wc_base.specs.Faults.{number_of};

/// An address of the analysed program, in bytes.
pub type Addr = u32;

/// A file that may be longer than the tool reads.
#[derive(Clone, Copy, Debug, PartialEq, Eq)]
pub enum FileWord {
    Binary,
    Hardware,
    Facts,
}

/// A field of the hardware file, or its root.
#[derive(Clone, Copy, Debug, PartialEq, Eq)]
pub enum FieldWord {
    Root,
    Cycles,
    Alu,
    Mul,
    Div,
    Load,
    Store,
    Multi,
    Branch,
    System,
    Taken,
    PerRegister,
    Icache,
    Sets,
    Ways,
    Line,
    Hit,
    Miss,
    Start,
}

/// A kind of input that the tool doesn't analyse yet.
#[derive(Clone, Copy, Debug, PartialEq, Eq)]
pub enum UnbuiltWord {
    Binary,
    Facts,
    Icache,
    Code,
}

/// A reason to refuse an input, with its place: an offset in bytes, an address, a line from 1, or a name.
#[derive(Clone, Copy, Debug, PartialEq, Eq)]
pub enum Fault {
    Truncated(u64),
    NotArm(u64),
    BadTable(u64),
    NoSymbol,
    Thumb(Addr),
    LongFile(FileWord),
    BadJson,
    BadField(FieldWord),
    BadFact(u64),
    UnknownLabel(u64),
    TooLarge,
    OutOfText(Addr),
    UnknownInstruction(Addr),
    Unresolved(Addr),
    Recursion(Addr),
    NoExit,
    Irreducible(Addr),
    Unbounded(Addr),
    NumberLimit,
    SystemLimit,
    PivotLimit,
    NoPath,
    BadCommand,
    LongLine,
    NoFact,
    TooMuch,
    Unbuilt(UnbuiltWord),
}

/// The fault's number, by which users and scripts know it.
pub fn number(fault: &Fault) -> u32
    ensures { result ≡ number_of fault.now }
{
    match fault {
        Fault::Truncated(_) => 1,
        Fault::NotArm(_) => 2,
        Fault::BadTable(_) => 3,
        Fault::NoSymbol => 4,
        Fault::Thumb(_) => 5,
        Fault::LongFile(_) => 6,
        Fault::BadJson => 10,
        Fault::BadField(_) => 11,
        Fault::BadFact(_) => 12,
        Fault::UnknownLabel(_) => 13,
        Fault::TooLarge => 20,
        Fault::OutOfText(_) => 21,
        Fault::UnknownInstruction(_) => 22,
        Fault::Unresolved(_) => 23,
        Fault::Recursion(_) => 24,
        Fault::NoExit => 25,
        Fault::Irreducible(_) => 30,
        Fault::Unbounded(_) => 31,
        Fault::NumberLimit => 40,
        Fault::SystemLimit => 41,
        Fault::PivotLimit => 42,
        Fault::NoPath => 43,
        Fault::BadCommand => 50,
        Fault::LongLine => 51,
        Fault::NoFact => 52,
        Fault::TooMuch => 53,
        Fault::Unbuilt(_) => 90,
    }
}
