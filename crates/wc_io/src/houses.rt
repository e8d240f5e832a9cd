ghost use Rattle.std.specs.Prelude.{◌≡◌, ℕ, Bool, List, [], Option, length, IfOk, OnOk, OnErr, IfSome, true, false};
ghost use Rattle.wc_io.specs.Rows.{Row, AddsRow, IsRowOf, Marks, path_of};
ghost use Rattle.wc_io.specs.Telling.{IsThere, Gives, IsFilled, OpensEmpty, Empties, KeepsOthers, KeepsRest, Brings, ComesBack};

use crate::{Sink, Source};
use std::alloc::AllocError;
use thiserror::Error;

/// Why a path wasn't opened.
#[derive(Clone, Copy, Debug, PartialEq, Eq, Error)]
pub enum HouseError {
    #[error("the path can't be opened")]
    Failed,
    #[error("out of memory")]
    Memory(AllocError),
}

/// Files by path, opened as sources and sinks. A house keeps a list of the paths that it was asked for.
pub trait House {
    type Source: Source + Send + Drop;

    type Sink: Sink + Send + Drop;

    /// A row for each call that opened a path or failed to.
    ghost opened: { Self → List Row };

    /// Whether the house tells what its files hold.
    ghost tells: { Self → Bool };

    /// The bytes of the file of a path, where they are told.
    ghost file: { Self → List ℕ → Option (List ℕ) };

    /// Whether these are the places of the sources and sinks that are out, the newest first. A house that doesn't know
    /// may call each list right: code for any house can't tell which ones do, so it gives back what it opened.
    ghost are_out: { Self → List ℕ → Type 0 } = { λ _ _. Unit {0} };

    /// Opens a path for reading.
    fn source(&mut self, path: &str) -> Result<Self::Source, HouseError>
        ensures row { AddsRow path.now false (opened self.old) (opened self.new) result }
        ensures place { IfOk result (λ s. Self.Source.place s ≡ length (opened self.new)) }
        ensures fresh { IfOk result (λ s. Self.Source.faults s ≡ 0) }
        ensures there { OnOk result (IsThere (tells self.old) (file self.old path.now)) }
        ensures bytes { IfOk result (λ s. Gives (file self.old path.now) (Self.Source.left s)) }
        ensures files { (p : List ℕ) → file self.new p ≡ file self.old p }
        ensures tells { tells self.new ≡ tells self.old }
        ensures out { Brings Self.Source.place result (are_out self.old) (are_out self.new) };

    /// Opens a path for writing: its file is empty from then on, and made where there was none.
    fn sink(&mut self, path: &str) -> Result<Self::Sink, HouseError>
        ensures row { AddsRow path.now true (opened self.old) (opened self.new) result }
        ensures place { IfOk result (λ s. Self.Sink.place s ≡ length (opened self.new)) }
        ensures fresh { IfOk result (λ s. Self.Sink.faults s ≡ 0) }
        ensures empty { IfOk result (λ s. IfSome (Self.Sink.held s) (λ bytes. bytes ≡ [])) }
        ensures held { OpensEmpty Self.Sink.held result (tells self.old) (file self.old path.now) }
        ensures emptied { OnOk result (Empties (tells self.old) path.now (file self.old) (file self.new)) }
        ensures kept { OnErr result ((p : List ℕ) → file self.new p ≡ file self.old p) }
        ensures others { KeepsOthers path.now (file self.old) (file self.new) }
        ensures tells { tells self.new ≡ tells self.old }
        ensures out { Brings Self.Sink.place result (are_out self.old) (are_out self.new) };

    /// Takes a source back. Its row is failed from then on where the source counted a fault.
    fn return_source(&mut self, source: Self::Source)
        requires { IsRowOf (Self.Source.place source) false (opened self.old) }
        ensures rows { Marks Self.Source.place Self.Source.faults source (opened self.old) (opened self.new) }
        ensures files { (p : List ℕ) → file self.new p ≡ file self.old p }
        ensures tells { tells self.new ≡ tells self.old }
        ensures out { ComesBack (Self.Source.place source) (are_out self.old) (are_out self.new) };

    /// Takes a sink back: the file of its path is what the sink holds. Its row is failed from then on where the
    /// sink counted a fault.
    fn return_sink(&mut self, sink: Self::Sink)
        requires { IsRowOf (Self.Sink.place sink) true (opened self.old) }
        ensures rows { Marks Self.Sink.place Self.Sink.faults sink (opened self.old) (opened self.new) }
        ensures file { IsFilled (file self.old (path_of (Self.Sink.place sink) (opened self.old)))
            (Self.Sink.held sink) (file self.new (path_of (Self.Sink.place sink) (opened self.old))) }
        ensures others { KeepsRest (Self.Sink.place sink) (opened self.old) (file self.old) (file self.new) }
        ensures tells { tells self.new ≡ tells self.old }
        ensures out { ComesBack (Self.Sink.place sink) (are_out self.old) (are_out self.new) };
}
