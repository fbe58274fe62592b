//! Whether two lists of pieces have the same rows.
ghost use Rattle.std.specs.Prelude.{◌≡◌, ◌↔◌, IsTrue};
ghost use Rattle.prog_tree.specs.Pieces.{rows_of};

use crate::cell::Cell;
use crate::piece::Piece;
use crate::row_pieces::RowPieces;

// Whether two pieces have the same rows.
fn is_same_piece(piece: &Piece, other: &Piece) -> bool
    ensures { IsTrue result ↔ (piece.now ≡ other.now) }
{
    piece.rows() == other.rows()
}

// Whether two lists of pieces are alike, piece by piece.
fn are_same_pieces(pieces: &[Piece], others: &[Piece]) -> bool
    ensures { IsTrue result → rows_of pieces.now ≡ rows_of others.now }
{
    if pieces.len() != others.len() {
        return false;
    }
    for (piece, other) in pieces.iter().zip(others) {
        if !is_same_piece(piece, other) {
            return false;
        }
    }
    true
}

fn is_same_row(row: &(Cell, i64), other: &(Cell, i64)) -> bool
    ensures { IsTrue result ↔ (row.now ≡ other.now) }
{
    row.0 == other.0 && row.1 == other.1
}

// The rows may be cut into pieces in different ways.
fn same_row_by_row(rows: &RowPieces, others: &RowPieces) -> bool
    ensures { IsTrue result ↔ (rows.now ≡ others.now) }
{
    let mut left = rows.walk();
    let mut right = others.walk();
    while let Some((row, left_behind)) = left.split_first() {
        let Some((other, right_behind)) = right.split_first() else {
            return false;
        };
        if !is_same_row(row, other) {
            return false;
        }
        left = left_behind;
        right = right_behind;
    }
    right.is_empty()
}

impl RowPieces {
    /// Whether both have the same rows. Where they are cut alike, pieces are compared whole.
    pub fn is_same(&self, other: &RowPieces) -> bool
        ensures { IsTrue result ↔ (self.now ≡ other.now) }
    {
        are_same_pieces(self.pieces(), other.pieces()) || same_row_by_row(self, other)
    }
}
