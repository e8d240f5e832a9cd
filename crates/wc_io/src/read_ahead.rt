ghost use Rattle.std.specs.Prelude.{◌≡◌, ℕ, ◌≤◌, [], length, drop, IfOk, OnErr};
ghost use Rattle.std.specs.Io.KnownBytes.{IsAtEnd, Keeps};
ghost use Rattle.wc_io.specs.Ahead.{to_come, unread_source};
ghost use Rattle.wc_io.specs.Causes.{HasCause};

use crate::{Failed, Source};
use std::marker::Model;

const CHUNK: usize = 4096;

/// A source of which a piece was read ahead: the bytes of `buffer` from `start` to `end`.
#[derive(Drop)]
pub struct ReadAhead<S: Source> {
    source: S,
    buffer: [u8; CHUNK],
    start: usize,
    end: usize,
}

impl<S: Source> Model for ReadAhead<S> {
    ghost use Rattle.std.specs.Prelude.{◌≤◌, slice_range};
    ghost use Rattle.wc_io.specs.Ahead.{Ahead};

    ghost Value = { Ahead };

    ghost view = { λ r. record {
      unread = slice_range r.buffer r.start r.end;
      left = S.left r.source;
      place = S.place r.source;
      faults = S.faults r.source;
    } };

    ghost invariant = { λ r. (r.start ≤ r.end) × (r.end ≤ 4096) };
}

impl<S: Source> ReadAhead<S> {
    pub fn new(source: S) -> Self
        ensures { result ≡ unread_source (S.left source) (S.place source) (S.faults source) }
    {
        ReadAhead {
            source,
            buffer: [0; CHUNK],
            start: 0,
            end: 0,
        }
    }

    /// Reads the next piece where none is there, and tells its length. 0 bytes mean the end.
    pub fn fill(&mut self) -> Result<usize, Failed>
        ensures count { IfOk result (λ n. n ≡ length self.new.unread) }
        ensures end { IfOk result (λ n. n ≡ 0 → IsAtEnd self.new.left) }
        ensures err { OnErr result (self.new.unread ≡ []) }
        ensures bytes { Keeps (to_come self.old) (to_come self.new) }
        ensures cause { HasCause self.old.faults self.new.faults result }
        ensures place { self.new.place ≡ self.old.place }
    {
        if self.start < self.end {
            return Ok(self.end - self.start);
        }
        self.start = 0;
        self.end = 0;
        let count = self.source.read(&mut self.buffer)?;
        self.end = count;
        Ok(count)
    }

    /// The bytes that were read ahead.
    pub fn unread(&self) -> &[u8]
        ensures { result.now ≡ self.now.unread }
    {
        &self.buffer[self.start..self.end]
    }

    /// Takes the first bytes that were read ahead.
    pub fn skip(&mut self, count: usize)
        requires { count ≤ length self.old.unread }
        ensures { self.new ≡ record self.old { unread = drop count self.old.unread } }
    {
        self.start += count;
    }

    pub fn into_source(self) -> S
        ensures place { S.place result ≡ self.place }
        ensures faults { S.faults result ≡ self.faults }
    {
        let ReadAhead {
            source,
            buffer: _,
            start: _,
            end: _,
        } = self;
        source
    }
}
