//! Rows in one piece.

ghost use Rattle.std.specs.Prelude.{◌≡◌, IfOk};

use crate::cell::Cell;
use crate::piece::Piece;
use crate::row_pieces::RowPieces;
use crate::sequence::Sequence;
use std::alloc::AllocError;

impl RowPieces {
    /// The rows of a list, in one piece.
    pub fn from_list(rows: Sequence<(Cell, i64)>) -> Result<Self, AllocError>
        ensures { IfOk result (λ pieces. pieces ≡ rows) }
    {
        let rows = rows.into_vec();
        let alloc = *rows.allocator();
        let mut pieces = Vec::with_capacity(alloc, 1)?;
        let piece = Piece::new(alloc, rows)?;
        pieces.push(piece)?;
        RowPieces::from_pieces(alloc, pieces)
    }
}
