//! Rows in pieces, one row after another.

ghost use Rattle.std.specs.Prelude.{◌≡◌, ◌∷◌, ◌↔◌, [], IsTrue, MatchOption};
ghost use Rattle.prog_tree.specs.Pieces.{rows_of};

use crate::cell::Cell;
use crate::piece::Piece;
use crate::row_pieces::RowPieces;
use std::marker::Model;

/// The rows of pieces that a walk over them has not come to yet. Contracts see the list of them.
#[derive(Debug, Drop)]
pub struct RowWalk<'r> {
    rows: &'r [(Cell, i64)],
    behind: &'r [Piece],
}

impl<'r> Model for RowWalk<'r> {
    ghost use Rattle.std.specs.Prelude.{◌≡◌, ◌++◌, []};
    ghost use Rattle.prog_tree.specs.Pieces.{rows_of};
    ghost use Rattle.prog_tree.specs.Table.{TableState};

    ghost Value = { TableState };

    ghost view = { λ w. w.rows.now ++ rows_of w.behind.now };

    ghost invariant = { λ w. w.rows.now ≡ [] → rows_of w.behind.now ≡ [] };
}

// A walk over the rows of pieces.
fn walk_over(pieces: &[Piece]) -> RowWalk<'_>
    ensures { result ≡ rows_of pieces.now }
{
    for (number, piece) in pieces.iter().enumerate() {
        let rows = piece.rows();
        if !rows.is_empty() {
            let behind = &pieces[number + 1..];
            return RowWalk { rows, behind };
        }
    }
    RowWalk {
        rows: &[],
        behind: &[],
    }
}

impl RowPieces {
    /// A walk over the rows.
    pub fn walk(&self) -> RowWalk<'_>
        ensures { result ≡ self.now }
    {
        walk_over(self.pieces())
    }
}

impl<'r> RowWalk<'r> {
    pub fn is_empty(&self) -> bool
        ensures { IsTrue result ↔ (self.now ≡ []) }
    {
        self.rows.is_empty()
    }

    /// The next row, and what is left behind it.
    pub fn split_first(&self) -> Option<(&'r (Cell, i64), RowWalk<'r>)>
        ensures { MatchOption result (self.now ≡ []) (λ split. self.now ≡ split.0.now ∷ split.1) }
    {
        let (row, rows) = self.rows.split_first()?;
        if rows.is_empty() {
            return Some((row, walk_over(self.behind)));
        }
        let behind = self.behind;
        Some((row, RowWalk { rows, behind }))
    }
}
