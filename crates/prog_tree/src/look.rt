//! What an instance found in its snapshot.

ghost use Rattle.std.specs.Prelude.{◌≡◌, ◌↔◌, IsTrue};

use crate::cell::{Cell, Region};
use crate::rising::RisingCells;
use crate::row_pieces::RowPieces;

/// What an instance found in its snapshot.
#[derive(Debug, Drop)]
pub enum Look {
    /// A cell and what it held.
    One(Cell, Option<i64>),
    /// A region and its rows in the order of their cells, but for those of its `own` cells: the
    /// ones that the instance had changed.
    Range {
        region: Region,
        own: RisingCells,
        rows: RowPieces,
    },
}

impl Look {
    /// Whether both looked at the same and found the same.
    pub fn is_same(&self, other: &Look) -> bool
        ensures { IsTrue result ↔ (self.now ≡ other.now) }
    {
        match (self, other) {
            (Look::One(cell, held), Look::One(c, h)) => cell == c && held == h,
            (
                Look::Range { region, own, rows },
                Look::Range {
                    region: r,
                    own: o,
                    rows: s,
                },
            ) => region.is_same(r) && own.is_same(o) && rows.is_same(s),
            _ => false,
        }
    }
}
