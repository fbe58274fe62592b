//! Begins as of an older number.

use crate::book::answer::{Answer, Call};
use crate::book::desk::{Case, play_all};
use crate::book::sets::{LOOK, NO_PROGRAM, REGISTERS};
use example_sets::set_of;
use history_book::BeginFault;
use std::test::Fail;

/// A look at an older number holds what it sees. The number that a vacuum has passed is gone.
const OLDER: &[(Call, Answer)] = &[
    (Call::Set(&[1, 5]), Answer::Committed(1)),
    (Call::BeginAt(0, LOOK, &[1]), Answer::Begun(1, 0)),
    (Call::Get(1), Answer::Holds(Some(0))),
    (Call::Vacuum, Answer::Count(0)),
    (Call::Withdraw, Answer::Withdrawn),
    (Call::Vacuum, Answer::Count(1)),
    (
        Call::BeginAt(0, LOOK, &[1]),
        Answer::NotBegun(BeginFault::TooOld { floor: 1 }),
    ),
    (
        Call::BeginAt(2, LOOK, &[1]),
        Answer::NotBegun(BeginFault::TooNew { commits: 1 }),
    ),
    (
        Call::RefusalAt(0, LOOK, &[1]),
        Answer::NotBegun(BeginFault::TooOld { floor: 1 }),
    ),
    (Call::RefusalAt(1, LOOK, &[1]), Answer::Nothing),
    (Call::BeginAt(1, LOOK, &[1]), Answer::Begun(2, 1)),
    (Call::Get(1), Answer::Holds(Some(5))),
];

/// A begin that is not refused is admitted, and sees what it would have seen.
const ADMITTED: &[(Call, Answer)] = &[
    (Call::Set(&[1, 5]), Answer::Committed(1)),
    (Call::Admit(0, LOOK, &[1]), Answer::Begun(1, 0)),
    (Call::Get(1), Answer::Holds(Some(0))),
    (Call::Admit(1, LOOK, &[1]), Answer::Begun(2, 1)),
    (Call::Get(1), Answer::Holds(Some(5))),
    (
        Call::Admit(2, LOOK, &[1]),
        Answer::NotBegun(BeginFault::TooNew { commits: 1 }),
    ),
];

/// The first refusal that applies is told: the book is full and has no number 0 and 2.
const REFUSED: &[(Call, Answer)] = &[
    (Call::Set(&[1, 5]), Answer::Committed(1)),
    (Call::Vacuum, Answer::Count(1)),
    (Call::Begins(99_999, LOOK, &[1]), Answer::Begun(99_999, 1)),
    (
        Call::BeginAt(0, NO_PROGRAM, &[]),
        Answer::NotBegun(BeginFault::NoSuchProgram),
    ),
    (
        Call::BeginAt(2, LOOK, &[]),
        Answer::NotBegun(BeginFault::WrongArguments),
    ),
    (
        Call::BeginAt(0, LOOK, &[1]),
        Answer::NotBegun(BeginFault::TooOld { floor: 1 }),
    ),
    (
        Call::BeginAt(2, LOOK, &[1]),
        Answer::NotBegun(BeginFault::TooNew { commits: 1 }),
    ),
    (
        Call::BeginAt(1, LOOK, &[1]),
        Answer::NotBegun(BeginFault::Full),
    ),
];

const CASES: &[Case] = &[
    ("a look at an older number", &[(0, 1, 0)], OLDER),
    ("who is not refused is admitted", &[(0, 1, 0)], ADMITTED),
    ("the first refusal is told", &[(0, 1, 0)], REFUSED),
];

#[test]
fn begins_as_of_an_older_number(rt: HostRuntime) -> Result<(), Fail> {
    let set = set_of(rt.alloc(), REGISTERS)?;
    play_all(&rt, rt.alloc(), &set, CASES);
    drop(set);
    Ok(())
}
