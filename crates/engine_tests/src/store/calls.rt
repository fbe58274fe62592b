//! Calls of a store and their answers, as plain data.

use crate::store::twin::{Deed, cell, changes, region};
use prog_tree::{Cell, RisingCells, RowPieces, Rows, Sequence};
use std::alloc::{AllocError, Global};
use std::process::Abort;
use version_store::{Clash, Store};

/// A call of a store.
#[derive(Clone, Copy)]
pub enum Call {
    /// A commit of these deeds.
    Install(&'static [Deed]),
    /// A vacuum up to a floor.
    Vacuum(u64),
    /// What `t[first]` held after so many commits.
    Get(u64, i64),
    /// The clash of these deeds with the commits above a start.
    Clash(u64, &'static [Deed]),
    /// Whether after so many commits these rows are those of `t[1..3]` but for one own cell.
    AreHeld(u64, i64, &'static [(Cell, i64)]),
    Versions,
    Commits,
    Floor,
}

/// What a call answers.
#[derive(Clone, Copy, PartialEq, Eq)]
pub enum Answer {
    Count(u64),
    Holds(Option<i64>),
    Clashes(Option<Clash>),
    Is(bool),
    /// The store can't tell of so few or so many commits.
    OutOfReach,
}

/// A store of rows `t[first]`.
pub fn open(rt: &impl Abort, alloc: Global, given: &[(i64, i64)]) -> Store {
    let mut rows = Rows::new(alloc);
    for (first, value) in given {
        rows.insert(cell(*first), *value).expect(rt, "memory");
    }
    Store::open(alloc, &rows).expect(rt, "memory")
}

/// Installs a commit.
pub fn install(rt: &impl Abort, alloc: Global, store: &mut Store, deeds: &[Deed]) -> Answer {
    if store.commits() == u64::MAX {
        return Answer::OutOfReach;
    }
    let changes = changes(rt, alloc, deeds);
    let number = store.install(&changes).expect(rt, "memory");
    Answer::Count(number)
}

fn vacuum(store: &mut Store, floor: u64) -> Answer {
    if floor < store.floor() || floor > store.commits() {
        return Answer::OutOfReach;
    }
    Answer::Count(store.vacuum(floor))
}

fn get(store: &Store, start: u64, first: i64) -> Answer {
    if start < store.floor() || start > store.commits() {
        return Answer::OutOfReach;
    }
    Answer::Holds(store.get(start, &cell(first)))
}

fn clash(rt: &impl Abort, alloc: Global, store: &Store, start: u64, deeds: &[Deed]) -> Answer {
    if start < store.floor() || start > store.commits() {
        return Answer::OutOfReach;
    }
    let changes = changes(rt, alloc, deeds);
    Answer::Clashes(store.clash(start, &changes))
}

// `t[first]` alone.
fn alone(alloc: Global, first: i64) -> Result<RisingCells, AllocError> {
    let mut cells = Vec::from_slice(alloc, &[cell(first)])?;
    cells.sort()?;
    Ok(RisingCells::from_vec(cells))
}

fn are_held(
    rt: &impl Abort,
    alloc: Global,
    store: &Store,
    start: u64,
    own: i64,
    rows: &[(Cell, i64)],
) -> Answer {
    if start < store.floor() || start > store.commits() {
        return Answer::OutOfReach;
    }
    let own = alone(alloc, own).expect(rt, "memory");
    let list = Sequence::from_slice(alloc, rows).expect(rt, "memory");
    let rows = RowPieces::from_list(list).expect(rt, "memory");
    Answer::Is(store.are_held(start, &region(1, 3), &own, &rows))
}

fn make(rt: &impl Abort, alloc: Global, store: &mut Store, call: &Call) -> Answer {
    match *call {
        Call::Install(deeds) => install(rt, alloc, store, deeds),
        Call::Vacuum(floor) => vacuum(store, floor),
        Call::Get(start, first) => get(store, start, first),
        Call::Clash(start, deeds) => clash(rt, alloc, store, start, deeds),
        Call::AreHeld(start, own, rows) => are_held(rt, alloc, store, start, own, rows),
        Call::Versions => Answer::Count(store.versions()),
        Call::Commits => Answer::Count(store.commits()),
        Call::Floor => Answer::Count(store.floor()),
    }
}

/// Makes calls of a store over these rows; each has to answer as wanted.
pub fn play(rt: &impl Abort, alloc: Global, given: &[(i64, i64)], calls: &[(Call, Answer)]) {
    let mut store = open(rt, alloc, given);
    for (number, (call, wanted)) in calls.iter().enumerate() {
        assert!(rt;
            make(rt, alloc, &mut store, call) == *wanted,
            "call {number}"
        );
    }
    drop(store);
}
