//! Scans that share the rows of blocks, beside those of the twin.

use crate::store::calls::{install, open};
use crate::store::twin::{Deed, region, rows_after};
use prog_tree::{Cell, Region, RisingCells, RowPieces};
use std::alloc::Global;
use std::process::Abort;
use version_store::Store;

/// How many rows there are at first: `t[0] = 0`, `t[2] = 1`, `t[4] = 2` and so on.
const OPENING_ROWS: u32 = 200;

/// Commits that change one block, two of them, none, and one at its seam.
const COMMITS: [&[Deed]; 5] = [
    &[Deed::Put(10, -1)],
    &[Deed::Remove(0), Deed::Put(399, 7)],
    &[Deed::Keep(20)],
    &[Deed::Put(127, 3), Deed::Put(128, 4)],
    &[Deed::Put(10, -2)],
];

/// Wide ranges, which share rows, and a short one, which does not.
const RANGES: [(i64, i64); 4] = [(0, 400), (5, 300), (-50, 1000), (9, 11)];

fn opening_rows(rt: &impl Abort, alloc: Global) -> Vec<(i64, i64)> {
    let mut rows = Vec::new(alloc);
    for number in 0..OPENING_ROWS {
        let value = i64::from(number);
        rows.push((2 * value, value)).expect(rt, "memory");
    }
    rows
}

/// The rows of pieces, one behind another.
fn gathered(rt: &impl Abort, alloc: Global, rows: &RowPieces) -> Vec<(Cell, i64)> {
    let mut gathered = Vec::new(alloc);
    for piece in rows.pieces() {
        let added = gathered.extend_from_slice(piece.rows());
        added.expect(rt, "memory");
    }
    gathered
}

/// The rows of a region after as many commits as the store can tell of, which are held then.
fn scan(rt: &impl Abort, alloc: Global, store: &Store, start: u64, region: &Region) -> RowPieces {
    assert!(rt; store.floor() <= start && start <= store.commits());
    let rows = store.scan_pieces(start, region).expect(rt, "memory");
    assert!(rt; store.are_held(start, region, &RisingCells::new(alloc), &rows));
    rows
}

// Scans after each number of commits so far find the rows of the list.
fn check_ranges(
    rt: &impl Abort,
    alloc: Global,
    store: &Store,
    opening: &[(i64, i64)],
    commits: &[&[Deed]],
) {
    for (low, high) in RANGES {
        let rows = rows_after(rt, alloc, opening, commits, low, high);
        let found = scan(rt, alloc, store, commits.len() as u64, &region(low, high));
        assert!(rt;
            gathered(rt, alloc, &found).as_slice() == rows.as_slice(),
            "{low}..{high} at {}",
            commits.len()
        );
    }
}

fn check_starts(
    rt: &impl Abort,
    alloc: Global,
    store: &Store,
    opening: &[(i64, i64)],
    commits: &[&[Deed]],
) {
    for start in 0..commits.len() {
        check_ranges(rt, alloc, store, opening, &commits[..start]);
    }
    check_ranges(rt, alloc, store, opening, commits);
}

#[test]
fn shared_rows_are_those_of_the_list(rt: HostRuntime) {
    let alloc = rt.alloc();
    let opening = opening_rows(&rt, alloc);
    let mut store = open(&rt, alloc, &opening);
    for number in 0..COMMITS.len() {
        store.prepare(number as u64, &region(-50, 1000));
        check_starts(&rt, alloc, &store, &opening, &COMMITS[..number]);
        install(&rt, alloc, &mut store, COMMITS[number]);
    }
    check_starts(&rt, alloc, &store, &opening, &COMMITS);
}

/// The sum and the number of `t[0] = 0` to `t[398] = 199`: 199 * 200 / 2, and 200.
#[test]
fn shared_rows_are_summed_and_counted(rt: HostRuntime) {
    let alloc = rt.alloc();
    let opening = opening_rows(&rt, alloc);
    let mut store = open(&rt, alloc, &opening);
    let region = region(0, 400);
    store.prepare(0, &region);
    let rows = scan(&rt, alloc, &store, 0, &region);
    let again = rows.share().expect(&rt, "memory");
    assert!(&rt; again.total() == 19_900 && again.len() == 200);
    assert!(&rt; again.pieces().len() > 1 && !again.is_empty());
}
