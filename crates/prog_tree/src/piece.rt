//! Rows that several may hold.

ghost use Rattle.std.specs.Prelude.{◌≡◌, length, IfOk};
ghost use Rattle.prog_tree.specs.Table.{total_of};

use crate::cell::Cell;
use std::alloc::{AllocError, Global};
use std::marker::Model;
use std::sync::Arc;

/// Some rows that several may hold, and what their values come to. Contracts see the list of the
/// rows.
#[derive(Debug, Drop)]
pub struct Piece {
    rows: Arc<Vec<(Cell, i64)>>,
    total: i128,
}

impl Model for Piece {
    ghost use Rattle.std.specs.Prelude.{◌≡◌};
    ghost use Rattle.prog_tree.specs.Table.{TableState, total_of};

    ghost Value = { TableState };

    ghost view = { λ p. p.rows.value.items };

    ghost invariant = { λ p. p.total ≡ total_of p.rows.value.items };
}

// The value of a row, which so is known to be an i64.
fn row_value(row: &(Cell, i64)) -> i64
    ensures { result ≡ row.now.1 }
{
    row.1
}

// The values of rows, added up.
fn add_values(rows: &[(Cell, i64)]) -> i128
    ensures { result ≡ total_of rows.now }
{
    let mut total = 0;
    for row in rows {
        total += i128::from(row_value(row));
    }
    total
}

impl Piece {
    pub fn new(alloc: Global, rows: Vec<(Cell, i64)>) -> Result<Self, AllocError>
        ensures { IfOk result (λ piece. piece ≡ rows.items) }
    {
        let total = add_values(&rows);
        let rows = Arc::new(alloc, rows)?;
        Ok(Piece { rows, total })
    }

    /// The same rows once more. They are not copied.
    pub fn share(&self) -> Result<Self, AllocError>
        ensures { IfOk result (λ piece. piece ≡ self.now) }
    {
        let rows = Arc::try_clone(&self.rows)?;
        Ok(Piece {
            rows,
            total: self.total,
        })
    }

    pub fn rows(&self) -> &[(Cell, i64)]
        ensures { result.now ≡ self.now }
    {
        self.rows.as_slice()
    }

    pub fn len(&self) -> usize
        ensures { result ≡ length self.now }
    {
        self.rows.len()
    }

    /// The values of the rows, added up.
    pub fn total(&self) -> i128
        ensures { result ≡ total_of self.now }
    {
        self.total
    }
}
