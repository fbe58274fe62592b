//! Cells that rise.

ghost use Rattle.std.specs.Prelude.{◌≡◌, ◌↔◌, [], IfOk, IsTrue};
ghost use Rattle.std.specs.List.Sorted.{IsSorted};
ghost use Rattle.prog_tree.specs.Table.{cell_cmp, is_cell_among};

use crate::cell::Cell;
use crate::sequence::Sequence;
use std::alloc::{AllocError, Global};
use std::marker::Model;

/// Cells in their order, among which others are looked for in few steps. Contracts see the list of
/// them.
#[derive(Debug, Drop)]
pub struct RisingCells {
    cells: Sequence<Cell>,
}

impl Model for RisingCells {
    ghost use Rattle.std.specs.Prelude.{List};
    ghost use Rattle.std.specs.List.Sorted.{IsSorted};
    ghost use Rattle.prog_tree.specs.declared.cell.Cell.{Cell};
    ghost use Rattle.prog_tree.specs.Table.{cell_cmp};

    ghost Value = { List Cell };

    ghost view = { λ r. r.cells };

    ghost invariant = { λ r. IsSorted cell_cmp r.cells };
}

impl RisingCells {
    /// No cells.
    pub fn new(alloc: Global) -> Self
        ensures { result ≡ [] }
    {
        RisingCells {
            cells: Sequence::new(alloc),
        }
    }

    pub fn from_vec(cells: Vec<Cell>) -> Self
        requires { IsSorted cell_cmp cells.items }
        ensures { result ≡ cells.items }
    {
        RisingCells {
            cells: Sequence::from_vec(cells),
        }
    }

    pub fn copy(&self) -> Result<Self, AllocError>
        ensures { IfOk result (λ copy. copy ≡ self.now) }
    {
        let cells = self.cells.copy()?;
        Ok(RisingCells { cells })
    }

    pub fn is_empty(&self) -> bool
        ensures { IsTrue result ↔ (self.now ≡ []) }
    {
        self.cells.is_empty()
    }

    pub fn as_slice(&self) -> &[Cell]
        ensures { result.now ≡ self.now }
    {
        self.cells.as_slice()
    }

    /// Whether both are the same cells.
    pub fn is_same(&self, other: &RisingCells) -> bool
        ensures { IsTrue result ↔ (self.now ≡ other.now) }
    {
        self.as_slice() == other.as_slice()
    }

    pub fn contains(&self, cell: &Cell) -> bool
        ensures { result ≡ is_cell_among self.now cell.now }
    {
        let cells = self.cells.as_slice();
        cells.binary_search(cell).is_ok()
    }
}
