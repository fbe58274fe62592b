//! What instances come to in a book.

use crate::book::answer::{Answer, Call};
use crate::book::desk::{Case, play, play_all};
use crate::book::runs::Ride;
use crate::book::sets::{FIRST_ROW, LOOK, NO_PROGRAM, REGISTERS, SECOND_ROW, SET, STOP};
use example_sets::set_of;
use history_book::{BeginFault, Difference};
use prog_check::ProgramSet;
use std::alloc::Global;
use std::process::Abort;
use std::test::Fail;

/// `Look(1)` on a snapshot without a row, up to its end.
const LOOKED: Ride = Ride {
    program: LOOK,
    args: &[1],
    held: None,
    steps: 2,
};

/// The same of another cell.
const ELSEWHERE: Ride = Ride {
    program: LOOK,
    args: &[2],
    held: None,
    steps: 2,
};

/// `Look(1)` with an answer that no snapshot gave.
const INVENTED: Ride = Ride {
    program: LOOK,
    args: &[1],
    held: Some(9),
    steps: 2,
};

/// `Look(1)` before its first statement.
const UNMOVED: Ride = Ride {
    program: LOOK,
    args: &[1],
    held: None,
    steps: 0,
};

/// `Set(1, 7)`, up to its end.
const SEVEN: Ride = Ride {
    program: SET,
    args: &[1, 7],
    held: None,
    steps: 2,
};

/// `Stop()`, which has aborted.
const STOPPED: Ride = Ride {
    program: STOP,
    args: &[],
    held: None,
    steps: 1,
};

const BEGINS: &[(Call, Answer)] = &[
    (
        Call::Begin(NO_PROGRAM, &[]),
        Answer::NotBegun(BeginFault::NoSuchProgram),
    ),
    (
        Call::Begin(LOOK, &[]),
        Answer::NotBegun(BeginFault::WrongArguments),
    ),
    (Call::Begin(LOOK, &[1]), Answer::Begun(0, 0)),
    (Call::Begin(LOOK, &[1]), Answer::Begun(1, 0)),
    (Call::IsFull, Answer::Is(false)),
];

const OPENED: &[(Call, Answer)] = &[
    (Call::Program("Cut"), Answer::Count(2)),
    (Call::Set(&[2, 7]), Answer::Committed(1)),
    (Call::Opening(2), Answer::Holds(Some(6))),
    (Call::Newest(2), Answer::Holds(Some(7))),
    (Call::Newest(1), Answer::Holds(Some(5))),
    (
        Call::AreRows(&[(FIRST_ROW, 5), (SECOND_ROW, 7)]),
        Answer::Is(true),
    ),
];

const COMMITS: &[(Call, Answer)] = &[
    (Call::Set(&[1, 5]), Answer::Committed(1)),
    (Call::Set(&[1, 6]), Answer::Committed(2)),
    (Call::Newest(1), Answer::Holds(Some(6))),
    (Call::Commits, Answer::Count(2)),
    (Call::StartOf(2), Answer::Count(1)),
    (Call::StartOf(3), Answer::Nothing),
    (Call::Ending(1), Answer::Committed(2)),
    (Call::Ending(2), Answer::Nothing),
];

const OLD: &[(Call, Answer)] = &[
    (Call::Begin(LOOK, &[1]), Answer::Begun(0, 0)),
    (Call::Set(&[1, 5]), Answer::Committed(1)),
    (Call::Get(1), Answer::Holds(None)),
    (Call::Rows, Answer::Count(0)),
    (Call::Begin(LOOK, &[1]), Answer::Begun(2, 1)),
    (Call::Get(1), Answer::Holds(Some(5))),
    (Call::Rows, Answer::Count(1)),
];

const FIRST_WINS: &[(Call, Answer)] = &[
    (Call::Begin(SET, &[1, 7]), Answer::Begun(0, 0)),
    (Call::Set(&[1, 5]), Answer::Committed(1)),
    (Call::Commit(SEVEN), Answer::Clashed(1)),
    (Call::Ending(1), Answer::Clashed(1)),
    (Call::Newest(1), Answer::Holds(Some(5))),
];

const NEVER: &[(Call, Answer)] = &[
    (Call::Begin(LOOK, &[1]), Answer::Begun(0, 0)),
    (
        Call::Commit(INVENTED),
        Answer::ForeignRun(Difference::Look(0)),
    ),
    (Call::Withdraw, Answer::Withdrawn),
    (Call::Commits, Answer::Count(0)),
    (Call::Ending(0), Answer::Nothing),
];

const ALTERED: &[(Call, Answer)] = &[
    (Call::Begin(LOOK, &[1]), Answer::Begun(0, 0)),
    (
        Call::Commit(ELSEWHERE),
        Answer::ForeignRun(Difference::Program),
    ),
    (Call::Commit(UNMOVED), Answer::WrongEnd),
    (Call::Commit(LOOKED), Answer::Committed(1)),
];

/// In the first book the instance of this number was withdrawn.
const UNKNOWN: &[(Call, Answer)] = &[
    (Call::Begin(LOOK, &[1]), Answer::Begun(0, 0)),
    (Call::Withdraw, Answer::Withdrawn),
    (Call::BeginElsewhere(LOOK, &[1]), Answer::Begun(0, 0)),
    (Call::Get(1), Answer::NoSuchTicket),
    (Call::Rows, Answer::NoSuchTicket),
    (Call::Commit(LOOKED), Answer::NoSuchTicket),
    (Call::End(STOPPED), Answer::NoSuchTicket),
    (Call::Withdraw, Answer::NoSuchTicket),
];

const SAME_NUMBER: &[(Call, Answer)] = &[
    (Call::Begin(LOOK, &[1]), Answer::Begun(0, 0)),
    (Call::BeginElsewhere(LOOK, &[1]), Answer::Begun(0, 0)),
    (Call::Get(1), Answer::Holds(Some(5))),
    (Call::Withdraw, Answer::Withdrawn),
];

const ABORTED: &[(Call, Answer)] = &[
    (Call::Begin(STOP, &[]), Answer::Begun(0, 0)),
    (Call::Commit(STOPPED), Answer::WrongEnd),
    (Call::End(LOOKED), Answer::WrongEnd),
    (Call::End(STOPPED), Answer::Aborted),
    (Call::Ending(0), Answer::Aborted),
    (Call::Commits, Answer::Count(0)),
];

const ENDINGS: &[(Call, Answer)] = &[
    (Call::Begin(STOP, &[]), Answer::Begun(0, 0)),
    (Call::End(STOPPED), Answer::Aborted),
    (Call::Begin(STOP, &[]), Answer::Begun(1, 0)),
    (Call::End(STOPPED), Answer::Aborted),
    (Call::Set(&[1, 5]), Answer::Committed(1)),
    (Call::Begin(STOP, &[]), Answer::Begun(3, 1)),
    (Call::End(STOPPED), Answer::Aborted),
    (Call::SameEndings(0, 1), Answer::Is(true)),
    (Call::SameEndings(0, 2), Answer::Is(false)),
    (Call::SameEndings(0, 3), Answer::Is(false)),
];

const DROPPED: &[(Call, Answer)] = &[
    (Call::Begin(LOOK, &[1]), Answer::Begun(0, 0)),
    (Call::Set(&[1, 1]), Answer::Committed(1)),
    (Call::Set(&[1, 2]), Answer::Committed(2)),
    (Call::Vacuum, Answer::Count(0)),
    (Call::Vacuum, Answer::Count(0)),
];

/// The ticket from elsewhere takes the place of the book's own, which is dropped.
const FREED: &[(Call, Answer)] = &[
    (Call::Begin(LOOK, &[1]), Answer::Begun(0, 0)),
    (Call::Set(&[1, 1]), Answer::Committed(1)),
    (Call::BeginElsewhere(LOOK, &[2]), Answer::Begun(0, 0)),
    (Call::Set(&[1, 2]), Answer::Committed(2)),
    (Call::Vacuum, Answer::Count(0)),
    (Call::Vacuum, Answer::Count(0)),
];

/// So many instances may be active at once. The ticket of the last is at hand, the others are
/// dropped.
const FULL: &[(Call, Answer)] = &[
    (Call::Begins(100_000, LOOK, &[1]), Answer::Begun(99_999, 0)),
    (Call::Begin(LOOK, &[1]), Answer::NotBegun(BeginFault::Full)),
    (Call::IsFull, Answer::Is(true)),
    (Call::Withdraw, Answer::Withdrawn),
    (Call::Begin(LOOK, &[1]), Answer::Begun(100_000, 0)),
    (Call::Begin(LOOK, &[1]), Answer::NotBegun(BeginFault::Full)),
];

const CASES: &[Case] = &[
    ("begins are refused or numbered", &[], BEGINS),
    (
        "a book tells what it was opened with",
        &[(0, 1, 5), (0, 2, 6)],
        OPENED,
    ),
    ("commits are kept", &[], COMMITS),
    ("an old instance sees its snapshot", &[], OLD),
    ("the first committer wins", &[], FIRST_WINS),
    ("invented answers never commit", &[], NEVER),
    ("an altered run leaves the ticket good", &[], ALTERED),
    ("a ticket of another book is unknown", &[], UNKNOWN),
    (
        "a ticket with the same number counts",
        &[(0, 1, 5)],
        SAME_NUMBER,
    ),
    ("an aborted run ends its instance", &[], ABORTED),
    (
        "endings are the same by their rows and causes",
        &[],
        ENDINGS,
    ),
    ("a dropped ticket holds the floor", &[(0, 1, 0)], DROPPED),
    ("no call frees a dropped ticket", &[(0, 1, 0)], FREED),
    ("a full book takes a begin after a withdrawal", &[], FULL),
];

#[test]
fn instances_come_to_what_is_told_by_hand(rt: HostRuntime) -> Result<(), Fail> {
    let set = set_of(rt.alloc(), REGISTERS)?;
    play_all(&rt, rt.alloc(), &set, CASES);
    drop(set);
    Ok(())
}

/// Sets in which `Look(1)` runs as well, over other tables or by another tree.
const OTHERS: [&str; 5] = [
    "table t 1 grow; program Look(k) { let x = get t[k] else -1; reply x; }",
    "table t 1; table u 1; program Look(k) { let x = get t[k] else -1; reply x; }",
    "table t 1; program Look(k) { let x = get t[k] else 0; reply x; }",
    "table t 1; program Look(k) { let y = get t[k] else -1; reply y; }",
    "table t 1; program See(k) { let x = get t[k] else -1; reply x; }",
];

const OVER_ANOTHER: Case = (
    "a run over another set leaves the ticket good",
    &[],
    &[
        (Call::Begin(LOOK, &[1]), Answer::Begun(0, 0)),
        (
            Call::CommitOther(LOOKED),
            Answer::ForeignRun(Difference::Program),
        ),
        (Call::Commit(LOOKED), Answer::Committed(1)),
    ],
);

fn play_beside(rt: &impl Abort, alloc: Global, set: &ProgramSet, text: &str) -> Result<(), Fail> {
    let other = set_of(alloc, text)?;
    play(rt, alloc, set, &other, &OVER_ANOTHER);
    drop(other);
    Ok(())
}

fn play_beside_others(rt: &impl Abort, alloc: Global, set: &ProgramSet) -> Result<(), Fail> {
    for text in OTHERS {
        play_beside(rt, alloc, set, text)?;
    }
    Ok(())
}

#[test]
fn a_run_over_another_set_leaves_the_ticket_good(rt: HostRuntime) -> Result<(), Fail> {
    let set = set_of(rt.alloc(), REGISTERS)?;
    let played = play_beside_others(&rt, rt.alloc(), &set);
    drop(set);
    played
}
