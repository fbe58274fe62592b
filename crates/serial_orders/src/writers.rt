//! The commits that changed each cell.

ghost use Rattle.std.specs.Prelude.{◌≡◌, ◌≤◌, ℕ, [], length, IfOk, OnOk};
ghost use Rattle.std.specs.List.Sorted.{IsStrictlySortedBy};
ghost use Rattle.prog_tree.specs.Table.{cell_cmp, cells_of, is_same_cell, is_cell_among};
ghost use Rattle.serial_orders.specs.Traces.{changed_at};
ghost use Rattle.serial_orders.specs.Reduced.{HasWriters, IsAddedAt, RiseFrom, IsCutBy, last_seen};
ghost use Rattle.serial_orders.specs.Reduced.{first_missed};

use crate::numbers::CommitNumbers;
use crate::trace::Trace;
use prog_tree::Cell;
use std::alloc::{AllocError, Global};
use std::collections::BTreeMap;
use std::marker::Model;

/// The numbers of the commits that changed each cell, rising. A cell without an entry has none.
#[derive(Debug, Drop)]
pub(crate) struct Writers {
    alloc: Global,
    pub(crate) cells: BTreeMap<Cell, CommitNumbers>,
}

impl Model for Writers {
    ghost use Rattle.std.specs.Prelude.{List, ℕ};
    ghost use Rattle.prog_tree.specs.Table.{Cells};

    ghost Value = { Cells (List ℕ) };

    ghost view = { λ w. w.cells.entries };
}

impl Writers {
    // Nothing was changed.
    fn none(alloc: Global) -> Self
        ensures { result ≡ [] }
    {
        Writers {
            alloc,
            cells: BTreeMap::new(alloc),
        }
    }

    // Adds a commit's number to those of a cell.
    fn add(&mut self, cell: Cell, number: usize) -> Result<(), AllocError>
        ensures { OnOk result (IsAddedAt (is_same_cell cell) number self.old self.new) }
    {
        let entry = self.cells.entry(cell)?;
        let numbers = entry.or_insert(CommitNumbers::new(self.alloc));
        numbers.push(number)?;
        Ok(())
    }

    // Adds a commit's number to those of each cell that it changed.
    fn add_all(&mut self, cells: &[Cell], number: usize) -> Result<(), AllocError>
        requires { IsStrictlySortedBy cell_cmp cells.now }
        ensures { OnOk result (IsAddedAt (is_cell_among cells.now) number self.old self.new) }
    {
        for cell in cells {
            self.add(*cell, number)?;
        }
        Ok(())
    }

    // Adds the number of a commit to those of each cell that it changed.
    fn add_trace(&mut self, trace: &Trace, number: usize) -> Result<(), AllocError>
        ensures { OnOk result (IsAddedAt (changed_at trace.now) number self.old self.new) }
    {
        self.add_all(trace.changed.as_slice(), number)
    }

    // The cells stand in their order.
    fn read_order(&self)
        ensures { IsStrictlySortedBy cell_cmp (cells_of self.now) }
    {
        let _entries = self.cells.iter();
    }

    /// The writers of the cells that some commits changed.
    pub(crate) fn of(alloc: Global, traces: &[Trace]) -> Result<Self, AllocError>
        ensures writers { IfOk result (λ writers. HasWriters traces.now writers) }
        ensures ordered { IfOk result (λ writers. IsStrictlySortedBy cell_cmp (cells_of writers)) }
    {
        let mut writers = Writers::none(alloc);
        for (index, trace) in traces.iter().enumerate() {
            writers.add_trace(trace, index + 1)?;
        }
        writers.read_order();
        Ok(writers)
    }
}

// How many of some numbers are at most a number.
pub(crate) fn count_seen(numbers: &[usize], start: u64) -> usize
    requires { RiseFrom 0 numbers.now }
    ensures bound { result ≤ length numbers.now }
    ensures cut { IsCutBy start numbers.now result }
{
    numbers.partition_point(|number| *number as u64 <= start)
}

// The last of some numbers that is at most `start`, where so many are.
pub(crate) fn last_seen(numbers: &[usize], count: usize) -> Option<usize>
    requires { count ≤ length numbers.now }
    ensures { (start : ℕ) → IsCutBy start numbers.now count
        → result ≡ last_seen start numbers.now }
{
    numbers[..count].last().copied()
}

// The first of some numbers that is above `start`, where so many are not.
pub(crate) fn first_missed(numbers: &[usize], count: usize) -> Option<usize>
    requires { count ≤ length numbers.now }
    ensures { (start : ℕ) → IsCutBy start numbers.now count
        → result ≡ first_missed start numbers.now }
{
    numbers.get(count).copied()
}
