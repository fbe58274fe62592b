//! Serial orders of books of given rows.

use crate::book::audits::{Any, Least, Ordered, Record, check_orders};
use crate::book::sets::{BALANCE, LOOK, REGISTERS, SET, TRANSACT_SAVING, WRITE_CHECK};
use example_sets::SMALL_BANK;
use std::test::Fail;

/// Savings and a checking account, both empty.
const EMPTY_ACCOUNTS: &[(usize, i64, i64)] = &[(0, 1, 0), (1, 1, 0)];

/// The read-only anomaly has no order: the check saw no savings, and commits behind a balance that
/// saw them.
const ANOMALY: Ordered = Ordered {
    set: SMALL_BANK,
    opening: EMPTY_ACCOUNTS,
    records: &[
        (TRANSACT_SAVING, &[1, 20], 0, &[]),
        (BALANCE, &[1], 1, &[20]),
        (WRITE_CHECK, &[1, 10], 0, &[]),
    ],
    least: Least::Cycle(&[1, 2, 3]),
    any: Any::NoOrder,
    fitting: &[],
    unfitting: &[
        &[1, 2, 3],
        &[1, 3, 2],
        &[2, 1, 3],
        &[2, 3, 1],
        &[3, 1, 2],
        &[3, 2, 1],
    ],
};

/// A serial history fits its own order.
const SERIAL: Ordered = Ordered {
    set: SMALL_BANK,
    opening: EMPTY_ACCOUNTS,
    records: &[
        (TRANSACT_SAVING, &[1, 20], 0, &[]),
        (WRITE_CHECK, &[1, 10], 1, &[]),
        (BALANCE, &[1], 2, &[10]),
    ],
    least: Least::Order(&[1, 2, 3]),
    any: Any::Order(&[1, 2, 3]),
    fitting: &[&[1, 2, 3]],
    unfitting: &[&[1, 1, 2], &[3, 2, 1], &[0, 1, 2], &[1, 2], &[]],
};

/// An old snapshot comes first.
const OLD: Ordered = Ordered {
    set: REGISTERS,
    opening: &[],
    records: &[(SET, &[1, 5], 0, &[]), (LOOK, &[1], 0, &[-1])],
    least: Least::Order(&[2, 1]),
    any: Any::Order(&[2, 1]),
    fitting: &[&[2, 1]],
    unfitting: &[&[1, 2]],
};

const SIX_LOOKS: [Record; 6] = [(LOOK, &[1], 0, &[-1]); 6];

const SEVEN_LOOKS: [Record; 7] = [(LOOK, &[1], 0, &[-1]); 7];

/// Six commits are ordered.
const SIX: Ordered = Ordered {
    set: REGISTERS,
    opening: &[],
    records: &SIX_LOOKS,
    least: Least::Order(&[1, 2, 3, 4, 5, 6]),
    any: Any::Order(&[1, 2, 3, 4, 5, 6]),
    fitting: &[&[6, 5, 4, 3, 2, 1]],
    unfitting: &[],
};

/// Seven commits are too many for the search.
const SEVEN: Ordered = Ordered {
    set: REGISTERS,
    opening: &[],
    records: &SEVEN_LOOKS,
    least: Least::Order(&[1, 2, 3, 4, 5, 6, 7]),
    any: Any::TooMany,
    fitting: &[&[7, 6, 5, 4, 3, 2, 1]],
    unfitting: &[],
};

#[test]
fn books_have_these_orders(rt: HostRuntime) -> Result<(), Fail> {
    for wanted in &[ANOMALY, SERIAL, OLD, SIX, SEVEN] {
        check_orders(&rt, rt.alloc(), wanted)?;
    }
    Ok(())
}
