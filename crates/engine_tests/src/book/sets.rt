//! A set of the tests, and rows.

use prog_tree::{Cell, Rows};
use std::alloc::Global;
use std::process::Abort;

/// Registers that are looked at, set and cut, and a program that aborts.
pub const REGISTERS: &str = "\
table t 1;
program Look(k) { let x = get t[k] else -1; reply x; }
program Set(k, v) { put t[k] = v; }
program Cut(k) { delete t[k]; }
program Stop() { abort; }
";

pub const LOOK: usize = 0;

pub const SET: usize = 1;

pub const STOP: usize = 3;

pub const NO_PROGRAM: usize = 4;

pub const BALANCE: usize = 0;

pub const DEPOSIT_CHECKING: usize = 1;

pub const TRANSACT_SAVING: usize = 2;

pub const WRITE_CHECK: usize = 4;

/// A cell of a table with one key column.
pub fn cell(table: usize, first: i64) -> Cell {
    Cell {
        table,
        first,
        second: 0,
    }
}

/// The cell `t[1]`, or `savings[1]`.
pub const FIRST_ROW: Cell = Cell {
    table: 0,
    first: 1,
    second: 0,
};

pub const SECOND_ROW: Cell = Cell {
    table: 0,
    first: 2,
    second: 0,
};

/// Rows of tables with one key column: the table, the key and the value of each.
pub fn rows_of(rt: &impl Abort, alloc: Global, given: &[(usize, i64, i64)]) -> Rows {
    let mut rows = Rows::new(alloc);
    for (table, first, value) in given {
        let cell = cell(*table, *first);
        rows.insert(cell, *value).expect(rt, "memory");
    }
    rows
}
