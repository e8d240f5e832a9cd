ghost use Rattle.std.specs.Prelude.{◌≡◌, ◌<◌, ◌∷◌, ◌++◌, [], Some, IfOk, length, slice_get};

use crate::frames::Leap;
use std::alloc::{AllocError, Global};
use std::marker::Model;

/// Where the steps of one position stand.
#[derive(Clone, Copy, Debug)]
pub struct Piece {
    pub from: usize,
    pub to: usize,
}

/// The steps of one position after the other, in one list.
#[derive(Drop)]
pub struct Rows {
    leaps: Vec<Leap>,
    pieces: Vec<Piece>,
}

impl Model for Rows {
    ghost use Rattle.std.specs.Prelude.{List, length};
    ghost use Rattle.wc_graph.specs.declared.frames.Leap.{Leap};

    ghost Value = { List (List Leap) };

    ghost use Rattle.wc_graph.specs.Inner.Rows.{rows_of, ArePieces};

    ghost view = { λ r. rows_of r.leaps.items r.pieces.items };

    ghost invariant = { λ r. ArePieces (length r.leaps.items) r.pieces.items };
}

impl Rows {
    /// No positions.
    pub fn new(alloc: Global) -> Self
        ensures { result ≡ [] }
    {
        Rows {
            leaps: Vec::new(alloc),
            pieces: Vec::new(alloc),
        }
    }

    /// How many positions have their steps.
    pub fn len(&self) -> usize
        ensures { result ≡ length self.now }
    {
        self.pieces.len()
    }

    /// The steps of the next position.
    pub fn push(&mut self, leaps: &[Leap]) -> Result<(), AllocError>
        ensures { IfOk result (λ _. self.new ≡ self.old ++ leaps.now ∷ []) }
    {
        let from = self.leaps.len();
        for leap in leaps {
            self.leaps.push(*leap)?;
        }
        let to = self.leaps.len();
        self.pieces.push(Piece { from, to })?;
        Ok(())
    }

    /// The steps of a position.
    pub fn row(&self, number: usize) -> &[Leap]
        requires { number < length self.now }
        ensures { slice_get self.now number ≡ Some result.now }
    {
        let piece = self.pieces[number];
        &self.leaps.as_slice()[piece.from..piece.to]
    }
}
