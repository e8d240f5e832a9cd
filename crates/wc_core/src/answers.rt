use wc_model::{Kind, Outcome};

/// What an edit answers: the count of the accepted edit, or the count at which no live fact had the number.
#[derive(Clone, Copy, Debug, PartialEq, Eq)]
pub enum Edited {
    Done(u64),
    NoFact(u64),
}

// What an open ask does next: it answers, it starts a run of a key, or it waits for a session.
#[derive(Clone, Copy)]
pub enum Step {
    Answers(Outcome),
    Starts(Kind, u64),
    Waits(u32),
}
