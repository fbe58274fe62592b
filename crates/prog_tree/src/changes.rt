//! What an instance writes.

ghost use Rattle.std.specs.Prelude.{◌≡◌, ◌↔◌, [], Some, None, OnOk, OnErr, IsTrue};
ghost use Rattle.std.specs.List.Sorted.{IsStrictlySortedBy};
ghost use Rattle.prog_tree.specs.Table.{cell_cmp, cells_of};
ghost use Rattle.prog_tree.specs.ChangeSet.{change_at, with_change, with_kept, touches_cell};
ghost use Rattle.prog_tree.specs.ChangeSet.{changes_between, no_changes};
ghost use Rattle.prog_tree.specs.Corners.{AreInOrder};

use crate::cell::Cell;
use std::alloc::{AllocError, Global};
use std::collections::{BTreeMap, BTreeSet, btree_map, btree_set};
use std::marker::Model;

/// What an instance writes: the cells that it sets or removes, and those that it keeps.
#[derive(Debug, Drop)]
pub struct Changes {
    cells: BTreeMap<Cell, Option<i64>>,
    kept: BTreeSet<Cell>,
}

impl Model for Changes {
    ghost use Rattle.prog_tree.specs.ChangeSet.{ChangeSet};

    ghost Value = { ChangeSet };

    ghost view = { λ c. record { cells = c.cells.entries; kept = c.kept.keys } };
}

impl Changes {
    pub fn new(alloc: Global) -> Self
        ensures { result ≡ no_changes }
    {
        Changes {
            cells: BTreeMap::new(alloc),
            kept: BTreeSet::new(alloc),
        }
    }

    /// Sets a cell to a value.
    pub fn put(&mut self, cell: Cell, value: i64) -> Result<(), AllocError>
        ensures ok { OnOk result (self.new ≡ with_change self.old cell (Some value)) }
        ensures err { OnErr result (self.new ≡ self.old) }
    {
        self.cells.insert(cell, Some(value))?;
        Ok(())
    }

    /// Removes a cell: a change also where it is absent.
    pub fn remove(&mut self, cell: Cell) -> Result<(), AllocError>
        ensures ok { OnOk result (self.new ≡ with_change self.old cell None) }
        ensures err { OnErr result (self.new ≡ self.old) }
    {
        self.cells.insert(cell, None)?;
        Ok(())
    }

    /// Keeps a cell: others may not write it, and it stays as it is.
    pub fn keep(&mut self, cell: Cell) -> Result<(), AllocError>
        ensures ok { OnOk result (self.new ≡ with_kept self.old cell) }
        ensures err { OnErr result (self.new ≡ self.old) }
    {
        self.kept.insert(cell)?;
        Ok(())
    }

    /// What a cell was changed to: a value, or nothing where it was removed.
    pub fn get(&self, cell: &Cell) -> Option<Option<i64>>
        ensures { result ≡ change_at self.now cell.now }
    {
        self.cells.get(cell).copied()
    }

    /// Whether a cell was changed or kept.
    pub fn touches(&self, cell: &Cell) -> bool
        ensures { result ≡ touches_cell self.now cell.now }
    {
        self.cells.contains_key(cell) || self.kept.contains(cell)
    }

    /// The changed cells, in their order.
    pub fn iter(&self) -> btree_map::Iter<'_, Cell, Option<i64>>
        ensures rest { result ≡ self.now.cells }
        ensures ordered { IsStrictlySortedBy cell_cmp (cells_of self.now.cells) }
    {
        self.cells.iter()
    }

    /// The changed cells from one to another, in their order.
    pub fn between(&self, low: Cell, high: Cell) -> btree_map::Range<'_, Cell, Option<i64>>
        requires { AreInOrder low high }
        ensures rest { result ≡ changes_between low high self.now.cells }
        ensures ordered { IsStrictlySortedBy cell_cmp (cells_of self.now.cells) }
    {
        self.cells.range(low..=high)
    }

    /// The kept cells, in their order.
    pub fn kept(&self) -> btree_set::Iter<'_, Cell>
        ensures rest { result ≡ self.now.kept }
        ensures ordered { IsStrictlySortedBy cell_cmp self.now.kept }
    {
        self.kept.iter()
    }
}
