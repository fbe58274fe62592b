//! What a commit does to the cells that it touches.
ghost use Rattle.std.specs.Prelude.{◌≡◌};
ghost use Rattle.std.specs.Iterator.{YieldsFirst, item_count};
ghost use Rattle.std.specs.List.Sorted.{IsStrictlySortedBy};
ghost use Rattle.prog_tree.specs.Table.{cell_cmp, cells_of};
ghost use Rattle.version_store.specs.Touches.{touches_left};

use prog_tree::{Cell, Changes};
use std::collections::{btree_map, btree_set};

/// What a commit does to a cell.
#[derive(Clone, Copy, Debug)]
pub enum Touch {
    /// Sets it to a value, or removes it.
    Change(Option<i64>),
    /// Keeps it as it is.
    Keep,
}

/// The changed cells of a commit, then those that it keeps, each with what is done to it.
#[derive(Drop)]
pub struct Touches<'c> {
    changed: btree_map::Iter<'c, Cell, Option<i64>>,
    kept: btree_set::Iter<'c, Cell>,
}

impl<'c> Touches<'c> {
    pub fn of(changes: &'c Changes) -> Self
        ensures changed { result.changed ≡ changes.now.cells }
        ensures kept { result.kept ≡ changes.now.kept }
        ensures changed_ordered { IsStrictlySortedBy cell_cmp (cells_of changes.now.cells) }
        ensures kept_ordered { IsStrictlySortedBy cell_cmp changes.now.kept }
    {
        Touches {
            changed: changes.iter(),
            kept: changes.kept(),
        }
    }
}

impl<'c> Iterator for Touches<'c> {
    type Item = (Cell, Touch);

    ghost next_gives = { YieldsFirst (λ touches. touches_left touches.changed touches.kept) };

    ghost remaining = { item_count (λ touches. touches_left touches.changed touches.kept) };

    fn next(&mut self) -> Option<(Cell, Touch)> {
        if let Some((cell, change)) = self.changed.next() {
            return Some((*cell, Touch::Change(*change)));
        }
        let cell = self.kept.next()?;
        Some((*cell, Touch::Keep))
    }
}
