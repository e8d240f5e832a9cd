ghost use Rattle.std.specs.Prelude.{◌≡◌, ◌++◌, ◌-◌, ◌+◌, ◌<◌, ◌≤◌, ◌^◌, List, [], length, take, IfOk, IfSome};
ghost use Rattle.std.specs.Prelude.{vec_capacity, ◌==◌};
ghost use Rattle.std.specs.List.{position_from};
ghost use Rattle.wc_io.specs.Lines.{without_return};
ghost use Rattle.wc_io.specs.Parts.{IsGiven};

use crate::LineRead;
use std::alloc::{AllocError, Global};
use std::marker::Model;
use std::mem;

/// The longest line, in bytes before its LF.
const MAX_LINE: usize = 4096;

/// Where the reading of a line ended.
#[derive(Clone, Copy)]
pub enum PartEnd {
    Feed,
    End,
    TooMuch,
    Failed,
}

/// The last line given, and the next one as far as it was read. Of that, one byte more is kept than a line may have.
#[derive(Drop)]
pub struct LineBuffer {
    line: Vec<u8>,
    part: Vec<u8>,
    count: u64,
}

impl Model for LineBuffer {
    ghost use Rattle.std.specs.Prelude.{◌≤◌, vec_len, vec_capacity};
    ghost use Rattle.wc_io.specs.Parts.{Buffered};

    ghost Value = { Buffered };

    ghost view = { λ b. record { line = b.line.items; part = b.part.items; count = b.count } };

    ghost invariant = { λ b. (4097 ≤ vec_capacity b.line) × (4097 ≤ vec_capacity b.part)
        × (vec_len b.part ≤ 4097) };
}

/// The index of the first LF.
pub fn find_feed(bytes: &[u8]) -> Option<usize>
    ensures first { result ≡ position_from (λ byte. byte == 10) 0 bytes.now }
    ensures within { IfSome result (λ i. i < length bytes.now) }
{
    bytes.iter().position(|byte| *byte == b'\n')
}

/// Drops a CR at the end.
fn drop_return(line: &mut Vec<u8>)
    ensures items { line.new.items ≡ without_return line.old.items }
    ensures capacity { vec_capacity line.new ≡ vec_capacity line.old }
{
    let length = line.len();
    if length > 0 && line[length - 1] == b'\r' {
        line.truncate(length - 1);
    }
}

impl LineBuffer {
    pub fn new(alloc: Global) -> Result<LineBuffer, AllocError>
        ensures { IfOk result (λ b. b ≡ record { line = []; part = []; count = 0 }) }
    {
        let mut line = Vec::new(alloc);
        line.reserve(MAX_LINE + 1)?;
        let mut part = Vec::new(alloc);
        part.reserve(MAX_LINE + 1)?;
        Ok(LineBuffer {
            line,
            part,
            count: 0,
        })
    }

    pub fn line(&self) -> &[u8]
        ensures { result.now ≡ self.now.line }
    {
        self.line.as_slice()
    }

    pub fn count(&self) -> u64
        ensures { result ≡ self.now.count }
    {
        self.count
    }

    /// Begins the next line.
    pub fn clear(&mut self)
        ensures { self.new ≡ record { line = self.old.line; part = []; count = 0 } }
    {
        self.part.clear();
        self.count = 0;
    }

    pub fn append(&mut self, piece: &[u8])
        requires { self.old.count + length piece.now < 2 ^ 64 }
        ensures line { self.new.line ≡ self.old.line }
        ensures part { self.new.part ≡ self.old.part ++ take (4097 - length self.old.part) piece.now }
        ensures count { self.new.count ≡ self.old.count + length piece.now }
    {
        let free = MAX_LINE + 1 - self.part.len();
        let _ = self.part.extend_from_slice(&piece[..free.min(piece.len())]);
        self.count += piece.len() as u64;
    }

    /// Gives the line, whose CR is dropped where an LF ended it, or skips it where it is too long.
    pub fn give(&mut self, ended: bool) -> LineRead
        ensures { IsGiven result (self.old.part, ended) self.old.line self.new.line }
    {
        if self.part.len() > MAX_LINE {
            return LineRead::TooLong;
        }
        if ended {
            drop_return(&mut self.part);
        }
        mem::swap(&mut self.line, &mut self.part);
        self.part.clear();
        LineRead::Line
    }
}
