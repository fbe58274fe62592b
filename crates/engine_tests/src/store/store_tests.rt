//! Calls of a store by hand, and its scans beside those of the twin.

use crate::store::calls::{Answer, Call, install, open, play};
use crate::store::twin::{Deed, region, rows_after};
use prog_tree::{Cell, Region};
use std::alloc::Global;
use std::process::Abort;
use version_store::{Clash, Store, clashes_are_found, retained_versions_stay};

/// Versions and vacuums, over `t[1] = 0`.
const VERSIONS: &[(Call, Answer)] = &[
    (Call::Install(&[Deed::Put(1, 1)]), Answer::Count(1)),
    (Call::Install(&[Deed::Put(1, 2)]), Answer::Count(2)),
    (Call::Install(&[Deed::Put(1, 3)]), Answer::Count(3)),
    (Call::Versions, Answer::Count(4)),
    (Call::Vacuum(1), Answer::Count(1)),
    (Call::Get(1, 1), Answer::Holds(Some(1))),
    (Call::Vacuum(3), Answer::Count(2)),
    (Call::Versions, Answer::Count(1)),
    (Call::Install(&[Deed::Remove(1)]), Answer::Count(4)),
    (Call::Get(3, 1), Answer::Holds(Some(3))),
    (Call::Get(4, 1), Answer::Holds(None)),
    (Call::Vacuum(4), Answer::Count(2)),
    (Call::Versions, Answer::Count(0)),
    (Call::Commits, Answer::Count(4)),
    (Call::Floor, Answer::Count(4)),
];

const FIRST: Cell = Cell {
    table: 0,
    first: 1,
    second: 0,
};

const SECOND: Cell = Cell {
    table: 0,
    first: 2,
    second: 0,
};

const THIRD: Cell = Cell {
    table: 0,
    first: 3,
    second: 0,
};

const FIRST_BY_1: Answer = Answer::Clashes(Some(Clash {
    cell: FIRST,
    number: 1,
}));

const FIRST_BY_3: Answer = Answer::Clashes(Some(Clash {
    cell: FIRST,
    number: 3,
}));

const SECOND_BY_5: Answer = Answer::Clashes(Some(Clash {
    cell: SECOND,
    number: 5,
}));

/// Marks of `keep` are not counted.
const MARKS: &[(Call, Answer)] = &[
    (Call::Install(&[Deed::Keep(1)]), Answer::Count(1)),
    (Call::Vacuum(0), Answer::Count(0)),
    (Call::Clash(0, &[Deed::Keep(1)]), FIRST_BY_1),
    (Call::Vacuum(1), Answer::Count(0)),
    (Call::Clash(1, &[Deed::Keep(1)]), Answer::Clashes(None)),
    (Call::Versions, Answer::Count(0)),
];

/// Five commits over `t[1] = 10` and `t[3] = 30`.
const COMMITS: [&[Deed]; 5] = [COMMIT_1, COMMIT_2, COMMIT_3, &[], COMMIT_5];

const COMMIT_1: &[Deed] = &[Deed::Put(2, 20), Deed::Remove(3)];

const COMMIT_2: &[Deed] = &[Deed::Keep(1)];

const COMMIT_3: &[Deed] = &[Deed::Put(1, 11), Deed::Put(3, 31)];

const COMMIT_5: &[Deed] = &[Deed::Remove(2), Deed::Keep(3)];

const OPENING: &[(i64, i64)] = &[(1, 10), (3, 30)];

const ROWS: &[(Cell, i64)] = &[(FIRST, 10), (SECOND, 20)];

const DEEDS: &[Deed] = &[Deed::Put(2, 5), Deed::Keep(1)];

/// After those commits: held rows are all but the own, and clashes name the least cell.
const WORKED: &[(Call, Answer)] = &[
    (Call::Install(COMMIT_1), Answer::Count(1)),
    (Call::Install(COMMIT_2), Answer::Count(2)),
    (Call::Install(COMMIT_3), Answer::Count(3)),
    (Call::Install(&[]), Answer::Count(4)),
    (Call::Install(COMMIT_5), Answer::Count(5)),
    (Call::AreHeld(0, 3, ROWS), Answer::Is(false)),
    (Call::AreHeld(1, 3, ROWS), Answer::Is(true)),
    (Call::AreHeld(1, 2, ROWS), Answer::Is(false)),
    (Call::AreHeld(2, 9, ROWS), Answer::Is(true)),
    (Call::AreHeld(3, 3, ROWS), Answer::Is(false)),
    (Call::AreHeld(5, 1, &[(THIRD, 31)]), Answer::Is(true)),
    (Call::Clash(0, DEEDS), FIRST_BY_3),
    (Call::Clash(2, DEEDS), FIRST_BY_3),
    (Call::Clash(3, DEEDS), SECOND_BY_5),
    (Call::Clash(4, DEEDS), SECOND_BY_5),
    (Call::Clash(5, DEEDS), Answer::Clashes(None)),
];

/// Rows at first, and the calls.
const PLAYED: [(&[(i64, i64)], &[(Call, Answer)]); 3] = [
    (&[(1, 0)], VERSIONS),
    (&[], MARKS),
    (OPENING, WORKED),
];

#[test]
fn calls_answer_as_told_by_hand(rt: HostRuntime) {
    for (given, calls) in PLAYED {
        play(&rt, rt.alloc(), given, calls);
    }
}

fn worked_store(rt: &impl Abort, alloc: Global) -> Store {
    let mut store = open(rt, alloc, OPENING);
    for deeds in &COMMITS {
        install(rt, alloc, &mut store, deeds);
    }
    store
}

/// The rows of a region after as many commits as the store can tell of.
fn scan(rt: &impl Abort, store: &Store, start: u64, region: &Region) -> Vec<(Cell, i64)> {
    assert!(rt; store.floor() <= start && start <= store.commits());
    store.scan(start, region).expect(rt, "memory").into_vec()
}

// A scan behind these commits has to find the rows of the list.
fn check_scan(rt: &impl Abort, alloc: Global, store: &Store, region: &Region, commits: &[&[Deed]]) {
    let (low, high, start) = (region.first_low, region.first_high, commits.len());
    let rows = rows_after(rt, alloc, OPENING, commits, low, high);
    let found = scan(rt, store, start as u64, region);
    assert!(rt;
        found.as_slice() == rows.as_slice(),
        "{low}..{high} at {start}"
    );
}

fn check_scans(rt: &impl Abort, alloc: Global, store: &Store, low: i64, high: i64) {
    let region = region(low, high);
    for start in 0..6 {
        check_scan(rt, alloc, store, &region, &COMMITS[..start]);
    }
}

const RANGES: [(i64, i64); 4] = [(1, 3), (2, 2), (2, 9), (3, 1)];

#[test]
fn scans_are_those_of_the_list(rt: HostRuntime) {
    let store = worked_store(&rt, rt.alloc());
    for (low, high) in RANGES {
        check_scans(&rt, rt.alloc(), &store, low, high);
    }
    drop(store);
}

/// The rows of all tables after as many commits as the store can tell of.
fn state_rows(rt: &impl Abort, store: &Store, start: u64) -> Vec<(Cell, i64)> {
    assert!(rt; store.floor() <= start && start <= store.commits());
    store.state_rows(start).expect(rt, "memory").into_vec()
}

/// Whether these are the rows of all tables, in the map of them.
fn has_state(rt: &impl Abort, store: &Store, start: u64, rows: &[(Cell, i64)]) -> bool {
    assert!(rt; store.floor() <= start && start <= store.commits());
    let state = store.state(start).expect(rt, "memory");
    state.len() == rows.len()
        && rows
            .iter()
            .all(|(cell, value)| state.get(cell) == Some(*value))
}

#[test]
fn states_are_those_of_the_list(rt: HostRuntime) {
    let store = worked_store(&rt, rt.alloc());
    for start in 0..6 {
        let rows = rows_after(&rt, rt.alloc(), OPENING, &COMMITS[..start], 1, 3);
        let found = state_rows(&rt, &store, start as u64);
        assert!(rt; found.as_slice() == rows.as_slice(), "at {start}");
        assert!(rt; has_state(&rt, &store, start as u64, &rows), "at {start}");
    }
    drop(store);
}

#[test]
fn laws_of_the_store_are_called() {
    clashes_are_found();
    retained_versions_stay();
}
