//! Why one commit of a book has to stand before another.

use crate::book::audits::{Reasoned, check_reasons};
use crate::book::sets::{
    BALANCE, DEPOSIT_CHECKING, FIRST_ROW, REGISTERS, SECOND_ROW, SET, TRANSACT_SAVING, WRITE_CHECK,
};
use example_sets::SMALL_BANK;
use history_book::OrderReason;
use prog_tree::{Cell, Region};
use std::test::Fail;

const CHECKING: Cell = Cell {
    table: 1,
    first: 1,
    second: 0,
};

/// The range `t[1..2]`.
const BOTH_ROWS: Region = Region {
    table: 0,
    first_low: 1,
    first_high: 2,
    second_low: 0,
    second_high: 0,
};

/// The check saw no savings, and commits behind a balance that saw them.
const ANOMALY: Reasoned = Reasoned {
    set: SMALL_BANK,
    opening: &[(0, 1, 0), (1, 1, 0)],
    records: &[
        (TRANSACT_SAVING, &[1, 20], 0, &[]),
        (BALANCE, &[1], 1, &[20]),
        (WRITE_CHECK, &[1, 10], 0, &[]),
    ],
    reasons: &[
        (1, 2, Some(OrderReason::Saw(FIRST_ROW))),
        (2, 3, Some(OrderReason::Missed(CHECKING))),
        (3, 1, Some(OrderReason::Missed(FIRST_ROW))),
        (2, 1, None),
        (1, 3, None),
        (1, 1, None),
        (0, 1, None),
        (3, 4, None),
    ],
};

/// Both changed a cell, whether the second looked at it or not.
const DEPOSITS: Reasoned = Reasoned {
    set: SMALL_BANK,
    opening: &[],
    records: &[
        (DEPOSIT_CHECKING, &[1, 5], 0, &[]),
        (DEPOSIT_CHECKING, &[1, 6], 1, &[]),
    ],
    reasons: &[(1, 2, Some(OrderReason::Both(CHECKING))), (2, 1, None)],
};

const REGISTER: Reasoned = Reasoned {
    set: REGISTERS,
    opening: &[],
    records: &[(SET, &[1, 5], 0, &[]), (SET, &[1, 6], 1, &[])],
    reasons: &[(1, 2, Some(OrderReason::Both(FIRST_ROW))), (2, 1, None)],
};

/// Write skew: each counts two rows, and sets one.
const SKEW: Reasoned = Reasoned {
    set: "table t 1; program P(k) { let n = count t[1..2]; put t[k] = n; }",
    opening: &[],
    records: &[(0, &[1], 0, &[]), (0, &[2], 0, &[])],
    reasons: &[
        (1, 2, Some(OrderReason::MissedIn(BOTH_ROWS, SECOND_ROW))),
        (2, 1, Some(OrderReason::MissedIn(BOTH_ROWS, FIRST_ROW))),
    ],
};

#[test]
fn books_tell_these_reasons(rt: HostRuntime) -> Result<(), Fail> {
    for wanted in &[ANOMALY, DEPOSITS, REGISTER, SKEW] {
        check_reasons(&rt, rt.alloc(), wanted)?;
    }
    Ok(())
}
