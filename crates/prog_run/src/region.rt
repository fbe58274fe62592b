//! What a run sees in a region.
ghost use Rattle.std.specs.Prelude.{◌≡◌, ◌↔◌, ◌≤◌, ◌++◌, length, option_copied, IfOk, IfSome};
ghost use Rattle.std.specs.Prelude.{IsTrue, OnOk};
ghost use Rattle.std.specs.List.{list_all};
ghost use Rattle.std.specs.List.Sorted.{IsStrictlySortedBy};
ghost use Rattle.prog_tree.specs.Table.{TableState, cell_cmp, is_in, cells_of, rows_in, row_held};
ghost use Rattle.prog_tree.specs.ChangeSet.{changes_in, changed};
ghost use Rattle.prog_tree.specs.Evaluation.{rows_without};
ghost use Rattle.prog_tree.specs.Value.{exact};
ghost use Rattle.prog_run.specs.Looks.{AreFound, IsFoundLast, region_look, seen_rows};
ghost use Rattle.prog_run.specs.Seen.{rows_before, AreAbsent, seen_by};

use prog_tree::{Cell, Changes, Look, Region, RisingCells, RowPieces, Sequence};
use std::alloc::{AllocError, Global};

/// What a look at a region found.
#[derive(Drop)]
pub struct Found {
    /// The cells of the region that the run had changed.
    pub own: RisingCells,
    /// The rows of all other cells.
    pub rows: RowPieces,
    /// The rows with the run's own changes among them, where it has made some.
    pub changed: Option<RowPieces>,
}

impl Found {
    /// The rows that the run sees.
    pub fn seen_rows(&self) -> &RowPieces
        ensures { result.now ≡ seen_by self.now }
    {
        match &self.changed {
            Some(rows) => rows,
            None => &self.rows,
        }
    }
}

/// Whether all rows lie in a region.
pub fn are_in(region: &Region, rows: &[(Cell, i64)]) -> bool
    ensures { result ≡ list_all (λ row. is_in region.now row.0) rows.now }
{
    rows.iter().all(|(cell, _)| region.contains(cell))
}

/// The rows that the last look found, where it was at just this region and left no cells out.
pub fn found_last<'l>(looks: &'l [Look], region: &Region) -> Option<&'l RowPieces>
    ensures last { IsFoundLast looks.now region.now (option_copied result) }
    ensures held { IfSome result (λ rows. (m : TableState) →
        AreFound m looks.now → rows.now ≡ rows_in region.now m) }
{
    let last = looks.last()?;
    match last {
        Look::Range {
            region: looked,
            own,
            rows,
        } if own.is_empty() && looked.is_same(region) => Some(rows),
        _ => None,
    }
}

// A run's own changes in a region.
fn own_changes(
    alloc: Global,
    changes: &Changes,
    region: &Region,
) -> Result<Vec<(Cell, Option<i64>)>, AllocError>
    ensures own { IfOk result (λ own. own.items ≡ changes_in region.now changes.now.cells) }
    ensures ordered { IfOk result (λ own. IsStrictlySortedBy cell_cmp (cells_of own.items)) }
{
    let mut own = Vec::new(alloc);
    let Some((low, high)) = region.corners() else {
        return Ok(own);
    };
    for (cell, change) in changes.between(low, high) {
        if region.contains(cell) {
            own.push((*cell, *change))?;
        }
    }
    Ok(own)
}

// The cells of changes.
fn changed_cells(alloc: Global, own: &[(Cell, Option<i64>)]) -> Result<Vec<Cell>, AllocError>
    ensures { IfOk result (λ cells. cells.items ≡ cells_of own.now) }
{
    let mut cells = Vec::with_capacity(alloc, own.len())?;
    for (cell, _) in own {
        cells.push(*cell)?;
    }
    Ok(cells)
}

// Adds rows behind others, but for those of some cells.
fn push_left(
    left: &mut Vec<(Cell, i64)>,
    rows: &[(Cell, i64)],
    own: &RisingCells,
) -> Result<(), AllocError>
    ensures { OnOk result (left.new.items ≡ left.old.items ++ rows_without own.now rows.now) }
{
    for row in rows {
        if !own.contains(&row.0) {
            left.push(*row)?;
        }
    }
    Ok(())
}

// The rows but for those of some cells.
fn without_own(
    alloc: Global,
    rows: &RowPieces,
    own: &RisingCells,
) -> Result<Vec<(Cell, i64)>, AllocError>
    ensures { IfOk result (λ left. left.items ≡ rows_without own.now rows.now) }
{
    let mut left = Vec::with_capacity(alloc, rows.len())?;
    for piece in rows.pieces() {
        push_left(&mut left, piece.rows(), own)?;
    }
    Ok(left)
}

// How many rows stand in front whose cells come before this one.
fn count_before(cell: &Cell, rows: &[(Cell, i64)]) -> usize
    ensures within { result ≤ length rows.now }
    ensures count { result ≡ rows_before cell.now rows.now }
{
    rows.iter()
        .take_while(|row| row.0.cmp(cell).is_lt())
        .count()
}

// Adds the row that a change makes: none if it removes the cell.
fn add_own(rows: &mut Vec<(Cell, i64)>, cell: Cell, change: Option<i64>) -> Result<(), AllocError>
    ensures { OnOk result (rows.new.items ≡ rows.old.items ++ row_held cell change) }
{
    if let Some(value) = change {
        rows.push((cell, value))?;
    }
    Ok(())
}

// Rows with a run's own changes of other cells among them, in the order of the cells: what it has
// removed is left out.
fn merge(
    alloc: Global,
    rows: &[(Cell, i64)],
    own: &[(Cell, Option<i64>)],
) -> Result<Vec<(Cell, i64)>, AllocError>
    requires ordered { IsStrictlySortedBy cell_cmp (cells_of own.now) }
    requires absent { AreAbsent rows.now own.now }
    ensures { IfOk result (λ seen. seen.items ≡ changed rows.now own.now) }
{
    let mut seen = Vec::with_capacity(alloc, rows.len())?;
    let mut left = rows;
    for (cell, change) in own {
        let (front, rest) = left.split_at(count_before(cell, left));
        seen.extend_from_slice(front)?;
        add_own(&mut seen, *cell, *change)?;
        left = rest;
    }
    seen.extend_from_slice(left)?;
    Ok(seen)
}

/// A number as an i64, or nothing where it is none.
pub fn exact_i64(number: i128) -> Option<i64>
    ensures { result ≡ exact number }
{
    i64::try_from(number).ok()
}

/// Looks at a region, of which the snapshot holds these rows. What the run has changed itself is
/// left out of the look's rows. Where that is nothing, these are the rows that it sees too.
pub fn look_at_region(
    alloc: Global,
    changes: &Changes,
    region: Region,
    rows: RowPieces,
) -> Result<Found, AllocError>
    ensures look { IfOk result (λ found.
        Look.Range region found.own found.rows ≡ region_look changes.now region rows) }
    ensures seen { IfOk result (λ found. seen_by found ≡ seen_rows changes.now region rows) }
{
    let own = own_changes(alloc, changes, &region)?;
    if own.is_empty() {
        return Ok(Found {
            own: RisingCells::new(alloc),
            rows,
            changed: None,
        });
    }
    let own_cells = changed_cells(alloc, &own)?;
    let left_out = RisingCells::from_vec(own_cells);
    let left = without_own(alloc, &rows, &left_out)?;
    let seen = merge(alloc, &left, &own)?;
    let rows = RowPieces::from_list(Sequence::from_vec(left))?;
    let changed = RowPieces::from_list(Sequence::from_vec(seen))?;
    Ok(Found {
        own: left_out,
        rows,
        changed: Some(changed),
    })
}
