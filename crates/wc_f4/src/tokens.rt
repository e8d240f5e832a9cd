/// A word of the grammar, or another word of small letters.
#[derive(Clone, Copy, PartialEq, Eq)]
pub enum Word {
    Loop,
    Multibranch,
    Multicall,
    Noreturn,
    Checksum,
    Limit,
    To,
    In,
    Other,
}

/// A token that isn't a word, a number or a string.
#[derive(Clone, Copy, PartialEq, Eq)]
pub enum Mark {
    Semicolon,
    Comma,
    Question,
    Plus,
    Minus,
    Star,
    Open,
    Close,
    AtMost,
}

/// A token. `Wrong` is what is none: an unended string or comment, a number of 2^32 or more, or another byte.
#[derive(Clone, Copy)]
pub enum Token<'a> {
    Word(Word),
    Number(u32),
    Quoted(&'a [u8]),
    Mark(Mark),
    Wrong,
    End,
}
