//! What is wrong with given rows.

use crate::book::audits::{Record, fault_of};
use crate::book::sets::{LOOK, NO_PROGRAM, REGISTERS, SET, STOP, cell};
use example_sets::set_of;
use history_book::{AuditFault, Clash, RowFault, same_numbers};
use prog_check::ProgramSet;
use std::alloc::Global;
use std::process::Abort;
use std::test::Fail;

/// Sets `t[1]` to 5.
const FIRST: Record = (SET, &[1, 5], 0, &[]);

// The record behind the first has to have the fault.
fn check_fault(rt: &impl Abort, alloc: Global, set: &ProgramSet, record: Record, fault: RowFault) {
    let found = fault_of(rt, alloc, set, &[FIRST, record]);
    assert!(rt; found == Some(AuditFault::Row { number: 1, fault }));
}

#[test]
fn the_first_fault_of_a_row_is_told(rt: HostRuntime) -> Result<(), Fail> {
    let clash = Clash {
        cell: cell(0, 1),
        number: 1,
    };
    let wrong: [(Record, RowFault); 6] = [
        ((NO_PROGRAM, &[1], 2, &[]), RowFault::NoSuchProgram),
        ((LOOK, &[], 2, &[]), RowFault::WrongArguments),
        ((LOOK, &[1], 2, &[]), RowFault::StartTooLate),
        ((STOP, &[], 1, &[]), RowFault::NotReady),
        ((LOOK, &[1], 0, &[5]), RowFault::WrongReplies),
        ((SET, &[1, 6], 0, &[]), RowFault::Clashed(clash)),
    ];
    let set = set_of(rt.alloc(), REGISTERS)?;
    for (record, fault) in wrong {
        check_fault(&rt, rt.alloc(), &set, record, fault);
    }
    drop(set);
    Ok(())
}

#[test]
fn numbers_are_the_same_one_by_one(rt: HostRuntime) {
    let others: [&[i64]; 5] = [&[], &[1], &[1, 5, 0], &[1, 6], &[5, 1]];
    assert!(rt; same_numbers(&[1, 5], &[1, 5]));
    for other in others {
        assert!(rt; !same_numbers(&[1, 5], other));
    }
}
