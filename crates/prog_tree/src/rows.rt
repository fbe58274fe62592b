//! Table states.

ghost use Rattle.std.specs.Prelude.{◌≡◌, ◌↔◌, [], length, IfOk, OnOk, OnErr, IsTrue};
ghost use Rattle.prog_tree.specs.Table.{HasI64Rows, IsTableState, row_at, with_row, without_row};

use crate::cell::Cell;
use std::alloc::{AllocError, Global};
use std::collections::BTreeMap;
use std::collections::btree_map::Iter;
use std::marker::Model;

/// The rows of tables: cells with their values.
#[derive(Debug, Drop)]
pub struct Rows {
    rows: BTreeMap<Cell, i64>,
}

impl Model for Rows {
    ghost use Rattle.prog_tree.specs.Table.{TableState, HasI64Rows};

    ghost Value = { TableState };

    ghost view = { λ r. r.rows.entries };

    ghost invariant = { λ r. HasI64Rows r.rows.entries };
}

impl Rows {
    pub fn new(alloc: Global) -> Self
        ensures { result ≡ [] }
    {
        Rows {
            rows: BTreeMap::new(alloc),
        }
    }

    pub fn get(&self, cell: &Cell) -> Option<i64>
        ensures { result ≡ row_at self.now cell.now }
    {
        self.rows.get(cell).copied()
    }

    /// Sets a row, and answers with the value that it replaced.
    pub fn insert(&mut self, cell: Cell, value: i64) -> Result<Option<i64>, AllocError>
        ensures ok { OnOk result (self.new ≡ with_row self.old cell value) }
        ensures replaced { IfOk result (λ old. old ≡ row_at self.old cell) }
        ensures err { OnErr result (self.new ≡ self.old) }
    {
        Ok(self.rows.insert(cell, value)?)
    }

    /// Removes a row, and answers with its value.
    pub fn remove(&mut self, cell: &Cell) -> Option<i64>
        ensures gone { self.new ≡ without_row self.old cell.now }
        ensures removed { result ≡ row_at self.old cell.now }
    {
        self.rows.remove(cell)
    }

    pub fn len(&self) -> usize
        ensures len { result ≡ length self.now }
        ensures ordered { IsTableState self.now }
        ensures i64 { HasI64Rows self.now }
    {
        self.rows.len()
    }

    pub fn is_empty(&self) -> bool
        ensures { IsTrue result ↔ (self.now ≡ []) }
    {
        self.len() == 0
    }

    /// The rows in the order of their cells.
    pub fn iter(&self) -> Iter<'_, Cell, i64>
        ensures rest { result ≡ self.now }
        ensures ordered { IsTableState self.now }
        ensures i64 { HasI64Rows self.now }
    {
        self.rows.iter()
    }

    pub fn copy(&self) -> Result<Self, AllocError>
        ensures { IfOk result (λ rows. rows ≡ self.now) }
    {
        Ok(Rows {
            rows: self.rows.clone()?,
        })
    }

    /// Whether both have the same rows.
    pub fn is_same(&self, other: &Rows) -> bool
        ensures { IsTrue result ↔ (self.now ≡ other.now) }
    {
        self.rows == other.rows
    }
}
