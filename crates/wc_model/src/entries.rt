use crate::{Edit, Facts, Hardware, Kind, Outcome, Text};

/// How a run ended: its value was stored, was dropped since its inputs had changed, or memory ran out.
#[derive(Clone, Copy, Debug, PartialEq, Eq)]
pub enum End {
    Kept,
    Dropped,
    Memory,
}

/// One event of the shared history.
#[derive(Debug, Drop, Clone, PartialEq)]
pub enum Entry {
    Edit {
        session: u32,
        count: u64,
        edit: Edit,
    },
    NoFact {
        session: u32,
        number: u64,
        at: u64,
    },
    Pin {
        session: u32,
        name: Text,
        at: u64,
    },
    Start {
        session: u32,
        kind: Kind,
        name: Text,
        stamp: u64,
    },
    Finish {
        session: u32,
        kind: Kind,
        name: Text,
        stamp: u64,
        end: End,
    },
    Answer {
        session: u32,
        name: Text,
        at: u64,
        outcome: Outcome,
    },
    List {
        session: u32,
        at: u64,
    },
}

/// The answer to an ask: the outcome on the inputs after the first `at` edits.
#[derive(Clone, Copy, Debug, PartialEq, Eq)]
pub struct Asked {
    pub at: u64,
    pub outcome: Outcome,
}

/// The live facts and the hardware after the first `at` edits.
#[derive(Debug, Drop)]
pub struct Listing {
    pub at: u64,
    pub facts: Facts,
    pub hardware: Hardware,
}

/// How a session ended.
#[derive(Clone, Copy, Debug, PartialEq, Eq)]
pub enum Ended {
    Quit,
    End,
    TooMuch,
    ReadFault,
    WriteFault,
}
