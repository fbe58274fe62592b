//! What is found in the chain of a cell, and the rows that it adds to others.
ghost use Rattle.std.specs.Prelude.{◌≡◌, ◌↔◌, ◌++◌, Some, OnOk};
ghost use Rattle.prog_tree.specs.Table.{TableState, is_cell_among, row_held};
ghost use Rattle.version_store.specs.Reading.{RisesFrom, value_at};
ghost use Rattle.version_store.specs.Regions.{seen_between, left_between, with_found};

use crate::chain::VersionChain;
use prog_tree::{Cell, Region, RisingCells, RowWalk, Rows, lies_between};
use std::alloc::AllocError;

/// Adds the row of a cell after the first `start` commits, where it has one.
pub fn add_found(
    rows: &mut Rows,
    start: u64,
    cell: &Cell,
    chain: &VersionChain,
) -> Result<(), AllocError>
    ensures { OnOk result (RisesFrom 0 chain.now.versions →
        rows.new ≡ with_found rows.old cell.now (value_at start chain.now)) }
{
    if let Some(value) = chain.value_at(start) {
        rows.insert(*cell, value)?;
    }
    Ok(())
}

/// What is seen in a region of a cell between its corners. There the second column alone tells
/// whether the cell is in the region.
#[inline]
pub fn seen_between(region: &Region, start: u64, cell: &Cell, chain: &VersionChain) -> Option<i64>
    ensures { RisesFrom 0 chain.now.versions →
        result ≡ seen_between region.now start cell.now chain.now }
{
    if !lies_between(region.second_low, cell.second, region.second_high) {
        return None;
    }
    chain.value_at(start)
}

// Whether a cell is one of some others. Most looks leave none out.
fn is_among(own: &RisingCells, cell: &Cell) -> bool
    ensures { result ≡ is_cell_among own.now cell.now }
{
    !own.is_empty() && own.contains(cell)
}

/// What is seen in a region of a cell between its corners, unless it is one of some `own` cells.
pub fn left_between(
    region: &Region,
    own: &RisingCells,
    start: u64,
    cell: &Cell,
    chain: &VersionChain,
) -> Option<i64>
    ensures { RisesFrom 0 chain.now.versions →
        result ≡ left_between region.now own.now start cell.now chain.now }
{
    if is_among(own, cell) {
        return None;
    }
    seen_between(region, start, cell, chain)
}

/// Adds the row of a cell behind the others, where something is found of it.
#[inline]
pub fn push_row(
    rows: &mut Vec<(Cell, i64)>,
    cell: &Cell,
    found: Option<i64>,
) -> Result<(), AllocError>
    ensures { OnOk result (rows.new.items ≡ rows.old.items ++ row_held cell.now found) }
{
    if let Some(value) = found {
        rows.push((*cell, value))?;
    }
    Ok(())
}

/// The rows behind that of a cell, if any is found of it; none where the first row is another.
pub fn rows_behind<'r>(rows: RowWalk<'r>, cell: &Cell, found: Option<i64>) -> Option<RowWalk<'r>>
    ensures { (rest : TableState) →
        (result ≡ Some rest) ↔ (row_held cell.now found ++ rest ≡ rows.entry) }
{
    let Some(value) = found else {
        return Some(rows);
    };
    let ((first, held), rest) = rows.split_first()?;
    if *held == value && cell.cmp(first).is_eq() {
        Some(rest)
    } else {
        None
    }
}
