//! Rows in pieces, which several may hold.

ghost use Rattle.std.specs.Prelude.{◌≡◌, ◌+◌, ◌+ℤ◌, ◌↔◌, [], length, IfOk, IfSome, IsTrue};
ghost use Rattle.prog_tree.specs.Table.{total_of};
ghost use Rattle.prog_tree.specs.Pieces.{rows_of};

use crate::piece::Piece;
use std::alloc::{AllocError, Global};
use std::marker::Model;
use std::sync::Arc;

/// The rows of pieces, one piece behind another, how many they are and what their values come to.
/// Contracts see the list of the rows.
#[derive(Debug, Drop)]
pub struct RowPieces {
    pieces: Arc<Vec<Piece>>,
    sums: Sums,
}

/// How many rows there are, and their values, added up.
#[derive(Clone, Copy, Debug)]
struct Sums {
    len: usize,
    total: i128,
}

impl Model for RowPieces {
    ghost use Rattle.std.specs.Prelude.{◌≡◌, length};
    ghost use Rattle.prog_tree.specs.Pieces.{rows_of};
    ghost use Rattle.prog_tree.specs.Table.{TableState, total_of};

    ghost Value = { TableState };

    ghost view = { λ r. rows_of r.pieces.value.items };

    ghost invariant = { λ r. (r.sums.len ≡ length (rows_of r.pieces.value.items))
        × (r.sums.total ≡ total_of (rows_of r.pieces.value.items)) };
}

impl Sums {
    // With those of a piece; none where they are beyond these numbers.
    fn with(self, piece: &Piece) -> Option<Sums>
        ensures len { IfSome result (λ sums. sums.len ≡ self.len + length piece.now) }
        ensures total { IfSome result (λ sums. sums.total ≡ self.total +ℤ total_of piece.now) }
    {
        let len = self.len.checked_add(piece.len())?;
        let total = self.total.checked_add(piece.total())?;
        Some(Sums { len, total })
    }
}

// The sums of pieces; none where they are beyond these numbers.
fn sums_of(pieces: &[Piece]) -> Option<Sums>
    ensures len { IfSome result (λ sums. sums.len ≡ length (rows_of pieces.now)) }
    ensures total { IfSome result (λ sums. sums.total ≡ total_of (rows_of pieces.now)) }
{
    let mut sums = Sums { len: 0, total: 0 };
    for piece in pieces {
        sums = sums.with(piece)?;
    }
    Some(sums)
}

impl RowPieces {
    /// The rows of pieces. More than a usize can count are refused as want of memory.
    pub fn from_pieces(alloc: Global, pieces: Vec<Piece>) -> Result<Self, AllocError>
        ensures { IfOk result (λ rows. rows ≡ rows_of pieces.items) }
    {
        let Some(sums) = sums_of(&pieces) else {
            return Err(AllocError);
        };
        let pieces = Arc::new(alloc, pieces)?;
        Ok(RowPieces { pieces, sums })
    }

    /// The same rows once more. They are not copied.
    pub fn share(&self) -> Result<Self, AllocError>
        ensures { IfOk result (λ rows. rows ≡ self.now) }
    {
        let pieces = Arc::try_clone(&self.pieces)?;
        Ok(RowPieces {
            pieces,
            sums: self.sums,
        })
    }

    pub fn pieces(&self) -> &[Piece]
        ensures { rows_of result.now ≡ self.now }
    {
        self.pieces.as_slice()
    }

    pub fn len(&self) -> usize
        ensures { result ≡ length self.now }
    {
        self.sums.len
    }

    pub fn is_empty(&self) -> bool
        ensures { IsTrue result ↔ (self.now ≡ []) }
    {
        self.len() == 0
    }

    /// The values of the rows, added up.
    pub fn total(&self) -> i128
        ensures { result ≡ total_of self.now }
    {
        self.sums.total
    }
}
