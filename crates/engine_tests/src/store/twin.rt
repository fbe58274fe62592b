//! The store as its definition tells it: a plain list of commits.

use prog_tree::{Cell, Changes, Region};
use std::alloc::Global;
use std::process::Abort;

/// `t[first]`, a cell of the table 0.
pub fn cell(first: i64) -> Cell {
    Cell {
        table: 0,
        first,
        second: 0,
    }
}

/// `t[low..high]`, cells of the table 0.
pub fn region(low: i64, high: i64) -> Region {
    Region {
        table: 0,
        first_low: low,
        first_high: high,
        second_low: 0,
        second_high: 0,
    }
}

/// What a commit does to `t[first]`.
#[derive(Clone, Copy)]
pub enum Deed {
    Put(i64, i64),
    Remove(i64),
    Keep(i64),
}

fn note(rt: &impl Abort, changes: &mut Changes, deed: &Deed) {
    let noted = match *deed {
        Deed::Put(first, value) => changes.put(cell(first), value),
        Deed::Remove(first) => changes.remove(cell(first)),
        Deed::Keep(first) => changes.keep(cell(first)),
    };
    noted.expect(rt, "memory");
}

/// The changes of a commit.
pub fn changes(rt: &impl Abort, alloc: Global, deeds: &[Deed]) -> Changes {
    let mut changes = Changes::new(alloc);
    for deed in deeds {
        note(rt, &mut changes, deed);
    }
    changes
}

// What `t[first]` holds after a commit, where it held this.
fn held_after(held: Option<i64>, deeds: &[Deed], first: i64) -> Option<i64> {
    let mut held = held;
    for deed in deeds {
        match *deed {
            Deed::Put(key, value) if key == first => held = Some(value),
            Deed::Remove(key) if key == first => held = None,
            _ => {}
        }
    }
    held
}

fn opening_of(given: &[(i64, i64)], first: i64) -> Option<i64> {
    for (key, value) in given {
        if *key == first {
            return Some(*value);
        }
    }
    None
}

fn held(given: &[(i64, i64)], commits: &[&[Deed]], first: i64) -> Option<i64> {
    let mut held = opening_of(given, first);
    for deeds in commits {
        held = held_after(held, deeds, first);
    }
    held
}

/// The rows of `t[low..high]` after these commits were made one after another.
pub fn rows_after(
    rt: &impl Abort,
    alloc: Global,
    given: &[(i64, i64)],
    commits: &[&[Deed]],
    low: i64,
    high: i64,
) -> Vec<(Cell, i64)> {
    let mut rows = Vec::new(alloc);
    for first in low..=high {
        if let Some(value) = held(given, commits, first) {
            rows.push((cell(first), value)).expect(rt, "memory");
        }
    }
    rows
}
