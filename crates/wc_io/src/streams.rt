ghost use Rattle.std.specs.Prelude.{◌≡◌, ℕ, ◌<◌, ◌≤◌, List, Option, length, IfOk};
ghost use Rattle.std.specs.Io.KnownBytes.{ReadConsumes, WriteAppends};
ghost use Rattle.wc_io.specs.Causes.{HasCause, IsWithin};

use thiserror::Error;

/// A read or a write failed, and its object counted the fault.
#[derive(Clone, Copy, Debug, PartialEq, Eq, Error)]
#[error("a read or write failed")]
pub struct Failed;

/// Bytes that come from outside, in order.
pub trait Source {
    /// The bytes to come, where they are told.
    ghost left: { Self → Option (List ℕ) };

    /// The number of the source's row in its house from 1, or 0 outside a house.
    ghost place: { Self → ℕ };

    /// The faults so far, up to 2^64 - 1.
    ghost faults: { Self → ℕ };

    /// Gives at most as many bytes as the buffer has room for. 0 bytes mean the end.
    fn read(&mut self, buffer: &mut [u8]) -> Result<usize, Failed>
        requires { 0 < length buffer.old }
        ensures bound { IfOk result (λ n. n ≤ length buffer.new) }
        ensures bytes { ReadConsumes (left self.old) (left self.new) result buffer.new }
        ensures cause { HasCause (faults self.old) (faults self.new) result }
        ensures place { place self.new ≡ place self.old };
}

/// Bytes that go outside, in order.
pub trait Sink {
    /// The bytes appended so far, where they are told.
    ghost held: { Self → Option (List ℕ) };

    /// The number of the sink's row in its house from 1, or 0 outside a house.
    ghost place: { Self → ℕ };

    /// The faults so far, up to 2^64 - 1.
    ghost faults: { Self → ℕ };

    /// Appends at least one byte of the piece, from its front, and tells how many.
    fn write(&mut self, piece: &[u8]) -> Result<usize, Failed>
        requires { 0 < length piece.now }
        ensures bound { IfOk result (IsWithin (length piece.now)) }
        ensures bytes { WriteAppends (held self.old) (held self.new) result piece.now }
        ensures cause { HasCause (faults self.old) (faults self.new) result }
        ensures place { place self.new ≡ place self.old };
}
