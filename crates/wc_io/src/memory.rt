ghost use Rattle.std.specs.Prelude.{◌≡◌, ◌<◌, ◌≤◌, length, IfOk, Some};
ghost use Rattle.std.specs.Io.KnownBytes.{ReadConsumes, WriteAppends};
ghost use Rattle.wc_io.specs.Causes.{HasCause, IsWithin};
ghost use Rattle.wc_io.specs.Memory.{IsEmptySink, ReadsMemory, WritesMemory};

use crate::{Failed, Sink, Source};
use std::alloc::Global;

/// Bytes in memory, read from the front. The calls of `read` whose numbers, from 1, stand in `failing` fail.
#[derive(Debug, Drop)]
pub struct MemorySource {
    pub place: u64,
    pub left: Vec<u8>,
    /// The most bytes that a call gives, or 0 for no such bound.
    pub most: usize,
    pub calls: u64,
    pub failing: Vec<u64>,
    pub faults: u64,
}

impl Source for MemorySource {
    ghost left = { λ s. Some s.left.items };

    ghost place = { λ s. s.place };

    ghost faults = { λ s. s.faults };

    fn read(&mut self, buffer: &mut [u8]) -> Result<usize, Failed>
        ensures bound { IfOk result (λ n. n ≤ length buffer.new) }
        ensures bytes { ReadConsumes (Some self.old.left.items) (Some self.new.left.items) result buffer.new }
        ensures cause { HasCause self.old.faults self.new.faults result }
        ensures place { self.new.place ≡ self.old.place }
        ensures memory { ReadsMemory self.old self.new (length buffer.new) result }
    {
        self.calls = self.calls.saturating_add(1);
        if self.failing.contains(&self.calls) {
            self.faults = self.faults.saturating_add(1);
            return Err(Failed);
        }
        let mut count = buffer.len().min(self.left.len());
        if self.most != 0 {
            count = count.min(self.most);
        }
        buffer[..count].copy_from_slice(&self.left[..count]);
        let rest = self.left.len() - count;
        self.left.rotate_left(count);
        self.left.truncate(rest);
        Ok(count)
    }
}

/// A text in memory that grows at its end. The calls of `write` whose numbers, from 1, stand in `failing` fail.
#[derive(Debug, Drop)]
pub struct MemorySink {
    pub place: u64,
    pub path: String,
    pub held: Vec<u8>,
    pub calls: u64,
    pub failing: Vec<u64>,
    pub faults: u64,
}

impl MemorySink {
    /// An empty sink outside of any house, of which no call is set to fail.
    pub fn new(alloc: Global) -> Self
        ensures { IsEmptySink result }
    {
        MemorySink {
            place: 0,
            path: String::new(alloc),
            held: Vec::new(alloc),
            calls: 0,
            failing: Vec::new(alloc),
            faults: 0,
        }
    }
}

impl Sink for MemorySink {
    ghost held = { λ k. Some k.held.items };

    ghost place = { λ k. k.place };

    ghost faults = { λ k. k.faults };

    /// Counts a want of memory as a fault of its own.
    fn write(&mut self, piece: &[u8]) -> Result<usize, Failed>
        requires { 0 < length piece.now }
        ensures bound { IfOk result (IsWithin (length piece.now)) }
        ensures bytes { WriteAppends (Some self.old.held.items) (Some self.new.held.items) result piece.now }
        ensures cause { HasCause self.old.faults self.new.faults result }
        ensures place { self.new.place ≡ self.old.place }
        ensures memory { WritesMemory self.old self.new (length piece.now) result }
    {
        self.calls = self.calls.saturating_add(1);
        if self.failing.contains(&self.calls) || self.held.extend_from_slice(piece).is_err() {
            self.faults = self.faults.saturating_add(1);
            return Err(Failed);
        }
        Ok(piece.len())
    }
}
