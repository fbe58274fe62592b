//! Cells, rows, changes and what a run has done, as a reader works them out.

use crate::told::{is_so_at, is_told};
use prog_tree::{
    Cell, Changes, Env, Piece, Progress, Region, RisingCells, RowPieces, Rows, Sequence,
    lies_between,
};
use std::alloc::{AllocError, Global};
use std::process::Abort;

fn cell(table: usize, first: i64, second: i64) -> Cell {
    Cell {
        table,
        first,
        second,
    }
}

/// Cells in their order.
fn rising(alloc: Global, cells: &[Cell]) -> Result<RisingCells, AllocError> {
    let mut cells = Vec::from_slice(alloc, cells)?;
    cells.sort()?;
    Ok(RisingCells::from_vec(cells))
}

/// A copy of cells in their order, which outlives them.
fn copy_of_rising(alloc: Global, cells: &[Cell]) -> Result<RisingCells, AllocError> {
    let cells = rising(alloc, cells)?;
    let copy = cells.copy();
    drop(cells);
    copy
}

/// Cells, and whether they are among `e[7, 1]` and `t[7]`.
const AMONG: [(usize, i64, bool); 4] = [(0, 1, true), (0, 0, false), (1, 0, true), (1, 1, false)];

fn check_rising(rt: &impl Abort, cells: &RisingCells) {
    assert!(rt; cells.as_slice() == [cell(0, 7, 1), cell(1, 7, 0)].as_slice());
    for (table, second, among) in &AMONG {
        let cell = cell(*table, 7, *second);
        is_so_at(rt, *table, cells.contains(&cell) == *among);
    }
    assert!(rt; !cells.is_empty());
}

#[test]
fn rising_cells_are_found(rt: HostRuntime) -> Result<(), AllocError> {
    let copy = copy_of_rising(rt.alloc(), &[cell(1, 7, 0), cell(0, 7, 1)])?;
    check_rising(&rt, &copy);
    drop(copy);
    Ok(())
}

#[test]
fn no_cells_are_empty(rt: HostRuntime) {
    let none = RisingCells::new(rt.alloc());
    assert!(rt; none.is_empty());
    drop(none);
}

/// Whether cells are the same as a copy of others.
fn is_same_as_copy_of(
    alloc: Global,
    cells: &RisingCells,
    others: &[Cell],
) -> Result<bool, AllocError> {
    let copy = copy_of_rising(alloc, others)?;
    let is_same = cells.is_same(&copy);
    drop(copy);
    Ok(is_same)
}

#[test]
fn rising_cells_are_the_same_where_all_are(rt: HostRuntime) -> Result<(), AllocError> {
    let cells = rising(rt.alloc(), &[cell(1, 7, 0), cell(0, 7, 1)])?;
    let all = is_same_as_copy_of(rt.alloc(), &cells, &[cell(1, 7, 0), cell(0, 7, 1)]);
    let one = is_same_as_copy_of(rt.alloc(), &cells, &[cell(0, 7, 1)]);
    drop(cells);
    assert!(rt; all == Ok(true) && one == Ok(false));
    Ok(())
}

#[test]
fn a_region_holds_its_ends(rt: HostRuntime) {
    let region = Region {
        table: 1,
        first_low: 7,
        first_high: 7,
        second_low: 1,
        second_high: 3,
    };
    for (table, first, second, within) in [
        (1, 7, 1, true),
        (1, 7, 3, true),
        (1, 7, 0, false),
        (1, 7, 4, false),
        (1, 8, 2, false),
        (0, 7, 2, false),
    ] {
        let cell = cell(table, first, second);
        assert!(rt;
            region.contains(&cell) == within,
            "{table} {first} {second}"
        );
    }
    assert!(rt; lies_between(1, 1, 3) && lies_between(1, 3, 3) && !lies_between(1, 4, 3));
}

#[test]
fn regions_have_corners_unless_they_are_empty(rt: HostRuntime) {
    let mut region = Region {
        table: 0,
        first_low: 2,
        first_high: 7,
        second_low: 0,
        second_high: 0,
    };
    assert!(rt; region.corners() == Some((cell(0, 2, 0), cell(0, 7, 0))));
    region.first_high = 1;
    assert!(rt; region.corners().is_none());
}

/// Rows that are given in this order, the first cell another again, and the value that was there:
/// table, key columns, value. `e` is table 0 and `t` table 1.
const GIVEN: [(usize, i64, i64, i64, Option<i64>); 4] = [
    (0, 7, 3, 4, None),
    (1, -5, 0, 8, None),
    (0, 7, 1, 9, None),
    (0, 7, 3, 5, Some(4)),
];

fn insert_rows(rt: &impl Abort, rows: &mut Rows) -> Result<(), AllocError> {
    for (table, first, second, value, before) in &GIVEN {
        let found = rows.insert(cell(*table, *first, *second), *value)?;
        assert!(rt; found == *before);
    }
    Ok(())
}

/// Takes out a row, and asks for it again.
fn remove_row(rt: &impl Abort, rows: &mut Rows) {
    let cell = cell(0, 7, 1);
    let removed = rows.remove(&cell);
    assert!(rt; removed == Some(9) && rows.get(&cell) == None && rows.len() == 2);
    assert!(rt; !rows.is_empty());
}

/// The rows of the copy, in cell order: table, key columns and value.
const COPIED: [(usize, i64, i64, i64); 3] = [(0, 7, 1, 9), (0, 7, 3, 5), (1, -5, 0, 8)];

fn check_copied(rt: &impl Abort, rows: &Rows) {
    let mut rows = rows.iter();
    for (table, first, second, value) in &COPIED {
        let wanted = cell(*table, *first, *second);
        assert!(rt; rows.next() == Some((&wanted, value)));
    }
    assert!(rt; rows.next().is_none());
}

/// A row is taken out behind a copy.
fn copy_before_removal(rt: &impl Abort, rows: &mut Rows) -> Result<Rows, AllocError> {
    insert_rows(rt, rows)?;
    let copy = rows.copy()?;
    remove_row(rt, rows);
    Ok(copy)
}

#[test]
fn rows_are_a_map_in_cell_order(rt: HostRuntime) -> Result<(), AllocError> {
    let mut rows = Rows::new(rt.alloc());
    assert!(rt; rows.is_empty());
    let copy = copy_before_removal(&rt, &mut rows);
    drop(rows);
    let copy = copy?;
    check_copied(&rt, &copy);
    drop(copy);
    Ok(())
}

/// `put t[2] = 5; delete t[1]; keep t[3]; keep t[2];`
fn change(changes: &mut Changes) -> Result<(), AllocError> {
    changes.put(cell(0, 2, 0), 5)?;
    changes.remove(cell(0, 1, 0))?;
    changes.keep(cell(0, 3, 0))?;
    changes.keep(cell(0, 2, 0))
}

/// First columns of cells, what these are changed to, and whether they are touched.
const CHANGED: [(i64, Option<Option<i64>>, bool); 4] = [
    (1, Some(None), true),
    (2, Some(Some(5)), true),
    (3, None, true),
    (4, None, false),
];

fn compare_changes(rt: &impl Abort, changes: &Changes) {
    for (first, change, is_touched) in &CHANGED {
        let cell = cell(0, *first, 0);
        assert!(rt; changes.get(&cell) == *change);
        assert!(rt; changes.touches(&cell) == *is_touched);
    }
}

fn push_changes(changes: &Changes, text: &mut String) -> Result<(), AllocError> {
    for (cell, value) in changes.iter() {
        write!(text, "{} {value:?}; ", cell.first)?;
    }
    Ok(())
}

/// The changes from `t[2]` on. The two cells are written out: `between` asks that they stand in
/// order, and `cell` promises nothing.
fn push_between(changes: &Changes, text: &mut String) -> Result<(), AllocError> {
    let low = Cell {
        table: 0,
        first: 2,
        second: 0,
    };
    let high = Cell {
        table: 0,
        first: 9,
        second: 0,
    };
    for (cell, value) in changes.between(low, high) {
        write!(text, "from 2 on {} {value:?}; ", cell.first)?;
    }
    Ok(())
}

fn push_kept(changes: &Changes, text: &mut String) -> Result<(), AllocError> {
    for cell in changes.kept() {
        write!(text, "kept {}; ", cell.first)?;
    }
    Ok(())
}

fn shown_changes(
    rt: &impl Abort,
    alloc: Global,
    changes: &mut Changes,
) -> Result<String, AllocError> {
    change(changes)?;
    compare_changes(rt, changes);
    let mut text = String::new(alloc);
    push_changes(changes, &mut text)?;
    push_between(changes, &mut text)?;
    push_kept(changes, &mut text)?;
    Ok(text)
}

#[test]
fn changes_are_values_removals_and_marks(rt: HostRuntime) -> Result<(), AllocError> {
    let mut changes = Changes::new(rt.alloc());
    let shown = shown_changes(&rt, rt.alloc(), &mut changes);
    drop(changes);
    let wanted = "1 None; 2 Some(5); from 2 on 2 Some(5); kept 2; kept 3; ";
    is_told(&rt, "changes", shown?.as_str(), wanted);
    Ok(())
}

/// Two replies, pushed one after another.
fn two_replies(alloc: Global) -> Result<Sequence<i64>, AllocError> {
    let mut replies = Sequence::new(alloc);
    for reply in &[3, -4] {
        replies.push(*reply)?;
    }
    Ok(replies)
}

/// Whether a copy has both replies.
fn is_copied(replies: &Sequence<i64>) -> Result<bool, AllocError> {
    let copy = replies.copy()?;
    let is_same = copy.as_slice() == [3, -4].as_slice();
    drop(copy);
    Ok(is_same)
}

/// The second reply is cut off.
fn check_cut(rt: &impl Abort, replies: &mut Sequence<i64>) {
    replies.truncate(1);
    assert!(rt; replies.as_slice() == [3].as_slice() && !replies.is_empty());
}

#[test]
fn a_sequence_is_its_items(rt: HostRuntime) -> Result<(), AllocError> {
    let replies = two_replies(rt.alloc())?;
    assert!(rt; replies.len() == 2);
    let mut again = Sequence::from_vec(replies.into_vec());
    assert!(rt; again.as_slice() == [3, -4].as_slice());
    let copied = is_copied(&again);
    check_cut(&rt, &mut again);
    drop(again);
    assert!(rt; copied == Ok(true));
    Ok(())
}

/// Rows `t[first]`, each by its first column and its value.
type FewRows = &'static [(i64, i64)];

/// Rows in one piece.
fn piece(alloc: Global, rows: FewRows) -> Result<Piece, AllocError> {
    let mut list = Vec::new(alloc);
    for (first, value) in rows {
        list.push((cell(0, *first, 0), *value))?;
    }
    Piece::new(alloc, list)
}

/// Rows in pieces: the first piece, which is shared, and others behind it.
fn behind(alloc: Global, first: &Piece, others: &[FewRows]) -> Result<RowPieces, AllocError> {
    let mut pieces = Vec::new(alloc);
    pieces.push(first.share()?)?;
    for rows in others {
        pieces.push(piece(alloc, rows)?)?;
    }
    RowPieces::from_pieces(alloc, pieces)
}

/// Rows that are shared, and outlive those that were found first.
fn found_again(alloc: Global, first: &Piece) -> Result<RowPieces, AllocError> {
    let found = behind(alloc, first, &[&[], &[(5, -3)]])?;
    let again = found.share();
    drop(found);
    again
}

// The value of each row, in order.
fn values(alloc: Global, rows: &RowPieces) -> Result<Vec<i64>, AllocError> {
    let mut values = Vec::new(alloc);
    let mut left = rows.walk();
    for _row in 0..rows.len() {
        let Some((row, behind)) = left.split_first() else {
            break;
        };
        values.push(row.1)?;
        left = behind;
    }
    Ok(values)
}

fn check_values(rt: &impl Abort, alloc: Global, rows: &RowPieces) -> Result<(), AllocError> {
    let values = values(alloc, rows)?;
    assert!(rt; values.as_slice() == [9, 4, -3].as_slice());
    drop(values);
    Ok(())
}

/// Three rows in three pieces, the second without rows.
fn check_pieces(rt: &impl Abort, rows: &RowPieces) {
    assert!(rt; rows.len() == 3 && rows.total() == 10 && !rows.is_empty());
    let pieces = rows.pieces();
    assert!(rt; pieces.len() == 3 && pieces[0].rows().len() == 2);
}

#[test]
fn rows_in_pieces_outlive_the_look_that_found_them(rt: HostRuntime) -> Result<(), AllocError> {
    let first = piece(rt.alloc(), &[(1, 9), (2, 4)])?;
    let again = found_again(rt.alloc(), &first);
    assert!(rt; first.len() == 2 && first.total() == 13);
    drop(first);
    let again = again?;
    check_pieces(&rt, &again);
    let checked = check_values(&rt, rt.alloc(), &again);
    drop(again);
    checked
}

#[test]
fn no_rows_are_in_pieces_of_an_empty_list(rt: HostRuntime) -> Result<(), AllocError> {
    let none = RowPieces::from_list(Sequence::new(rt.alloc()))?;
    assert!(rt; none.is_empty() && none.walk().is_empty());
    drop(none);
    Ok(())
}

/// The rows of a first piece, and those of each piece behind it.
type Cut = (FewRows, &'static [FewRows]);

const CUT: Cut = (&[(1, 9)], &[&[(2, 4), (5, -3)]]);

const WHOLE: Cut = (&[(1, 9), (2, 4), (5, -3)], &[]);

const SHORTER: Cut = (&[(1, 9), (2, 4)], &[]);

/// Rows that are cut so.
fn in_pieces(alloc: Global, cut: &Cut) -> Result<RowPieces, AllocError> {
    let first = piece(alloc, cut.0)?;
    let rows = behind(alloc, &first, cut.1);
    drop(first);
    rows
}

/// Whether rows are the same as others that are cut so.
fn is_same_as(alloc: Global, rows: &RowPieces, cut: &Cut) -> Result<bool, AllocError> {
    let others = in_pieces(alloc, cut)?;
    let is_same = rows.is_same(&others);
    drop(others);
    Ok(is_same)
}

/// Whether rows are the same as themselves once more.
fn is_same_as_share(rows: &RowPieces) -> Result<bool, AllocError> {
    let share = rows.share()?;
    let is_same = rows.is_same(&share);
    drop(share);
    Ok(is_same)
}

/// Whether rows that are cut so are the same as others.
fn are_same(alloc: Global, cut: &Cut, other: &Cut) -> Result<bool, AllocError> {
    let rows = in_pieces(alloc, cut)?;
    let is_same = is_same_as(alloc, &rows, other);
    drop(rows);
    is_same
}

/// Rows and others, and whether they are the same.
const PAIRS: [(Cut, Cut, bool); 4] = [
    (CUT, WHOLE, true),
    (WHOLE, CUT, true),
    (CUT, SHORTER, false),
    (SHORTER, WHOLE, false),
];

#[test]
fn rows_are_the_same_however_they_are_cut(rt: HostRuntime) {
    for (cut, other, wanted) in &PAIRS {
        assert!(rt; are_same(rt.alloc(), cut, other) == Ok(*wanted));
    }
}

#[test]
fn shared_rows_are_the_same(rt: HostRuntime) -> Result<(), AllocError> {
    let rows = in_pieces(rt.alloc(), &CUT)?;
    let is_same = is_same_as_share(&rows);
    drop(rows);
    assert!(rt; is_same == Ok(true));
    Ok(())
}

fn check_nothing_done(rt: &impl Abort, progress: &Progress<'_>) {
    assert!(rt; progress.env.is_empty());
    assert!(rt; progress.deeds.is_empty() && progress.looks.is_empty());
    assert!(rt; progress.replies.is_empty() && progress.changes.iter().len() == 0);
}

#[test]
fn a_run_has_done_nothing_at_first(rt: HostRuntime) -> Result<(), AllocError> {
    let progress = Progress::with_room(rt.alloc(), Env::new(rt.alloc()), 2)?;
    check_nothing_done(&rt, &progress);
    drop(progress);
    Ok(())
}
