//! The same calls on a book and on a shared book have the same answers.

use crate::book::answer::{Answer, Call};
use crate::book::bench::Bench;
use crate::book::kept::keep_the_same;
use crate::book::shelf::Shelf;
use crate::sets::{CUT, Certified, LOOK, MAYBE, OVERFLOW, REGISTERS, SET, TOTAL, rows_of};
use example_sets::set_of;
use history_book::{BeginFault, Book};
use prog_check::ProgramSet;
use prog_tree::{Cause, End};
use si_workers::SharedBook;
use std::alloc::Global;
use std::process::Abort;
use std::sync::Wait;
use std::test::Fail;

/// A call, and what it has to answer where that is said.
type Wanted = (Call, Option<Answer>);

// A bench over a book of these rows, which is shared or not.
fn bench<'a>(
    rt: &impl Abort,
    alloc: Global,
    set: &'a ProgramSet,
    rows: &[(i64, i64)],
    is_shared: bool,
) -> Bench<'a> {
    let rows = rows_of(alloc, rows).expect(rt, "memory");
    let book = Book::open(alloc, set, rows).expect(rt, "memory");
    let shelf = if is_shared {
        Shelf::Shared(SharedBook::new(book))
    } else {
        Shelf::Alone(book)
    };
    Bench::new(alloc, set, shelf)
}

fn answers_of<R: Wait + Abort>(
    rt: &R,
    alloc: Global,
    bench: &mut Bench<'_>,
    calls: &[Wanted],
) -> Vec<Answer> {
    let mut answers = Vec::new(alloc);
    for (call, _) in calls {
        answers.push(bench.make(rt, call)).expect(rt, "memory");
    }
    answers
}

fn check_answers(rt: &impl Abort, calls: &[Wanted], answers: &[Answer]) {
    for (number, ((_, wanted), answer)) in calls.iter().zip(answers).enumerate() {
        assert!(rt;
            wanted.is_none() || *wanted == Some(*answer),
            "call {number}"
        );
    }
}

// Both have to keep the same, which comes to so many commits and endings.
fn check_kept(rt: &impl Abort, alone: &Book<'_>, shared: &Book<'_>, wanted: (u64, usize)) {
    assert!(rt; keep_the_same(alone, shared) == Ok(true));
    assert!(rt; (alone.commits(), alone.endings().len()) == wanted);
}

/// A set, rows, calls, and how many commits and endings they come to.
struct Case {
    set: Certified,
    rows: &'static [(i64, i64)],
    calls: &'static [Wanted],
    counts: (u64, usize),
}

/// What calls came to: their answers and the book.
#[derive(Drop)]
struct Made<'a> {
    answers: Vec<Answer>,
    book: Book<'a>,
}

// Makes the calls on a book that is shared or not.
fn make<'a, R: Wait + Abort>(
    rt: &R,
    alloc: Global,
    set: &'a ProgramSet,
    case: &Case,
    is_shared: bool,
) -> Made<'a> {
    let mut bench = bench(rt, alloc, set, case.rows, is_shared);
    let answers = answers_of(rt, alloc, &mut bench, case.calls);
    let book = bench.into_book();
    Made { answers, book }
}

// The answers have to be the same, and as wanted where that is said, and so has what both keep.
fn compare(rt: &impl Abort, alone: &Made<'_>, shared: &Made<'_>, case: &Case) {
    assert!(rt; shared.answers.as_slice() == alone.answers.as_slice());
    check_answers(rt, case.calls, &alone.answers);
    check_kept(rt, &alone.book, &shared.book, case.counts);
}

// Makes the calls on a book and on a shared book, and compares what they come to.
fn check_both<R: Wait + Abort>(rt: &R, alloc: Global, set: &ProgramSet, case: &Case) {
    let alone = make(rt, alloc, set, case, false);
    let shared = make(rt, alloc, set, case, true);
    compare(rt, &alone, &shared, case);
    drop(alone);
    drop(shared);
}

fn check_alike<R: Wait + Abort>(rt: &R, alloc: Global, case: &Case) -> Result<(), Fail> {
    let set = set_of(alloc, case.set.text)?;
    check_both(rt, alloc, &set, case);
    drop(set);
    Ok(())
}

const READY: Option<Answer> = Some(Answer::Ran(End::Ready));

// What a vacuum counts is not told here: only that both count the same.
const COMMITS: &[Wanted] = &[
    (Call::Begin(SET, &[1, 1]), Some(Answer::Begun(0, 0))),
    (Call::Run(0), READY),
    (Call::Commit(0), Some(Answer::Committed(1))),
    (Call::Begin(LOOK, &[1]), Some(Answer::Begun(1, 1))),
    (Call::Begin(SET, &[1, 2]), Some(Answer::Begun(2, 1))),
    (Call::Run(2), READY),
    (Call::Commit(2), Some(Answer::Committed(2))),
    (Call::Begin(SET, &[1, 3]), Some(Answer::Begun(3, 2))),
    (Call::Run(3), READY),
    (Call::Commit(3), Some(Answer::Committed(3))),
    (Call::Vacuum, None),
    (Call::Run(1), READY),
    (Call::Commit(1), Some(Answer::Committed(4))),
    (Call::Vacuum, None),
    (Call::Begin(CUT, &[1]), Some(Answer::Begun(4, 4))),
    (Call::Run(4), READY),
    (Call::Commit(4), Some(Answer::Committed(5))),
    (Call::Vacuum, None),
];

const REFUSALS: &[Wanted] = &[
    (Call::Begin(TOTAL, &[]), Some(Answer::Begun(0, 0))),
    (
        Call::Run(0),
        Some(Answer::Ran(End::Aborted(Cause::Overflow))),
    ),
    (Call::End(0), Some(Answer::Aborted)),
    (Call::Run(0), Some(Answer::Nothing)),
    (Call::Begin(MAYBE, &[-1]), Some(Answer::Begun(1, 0))),
    (Call::Commit(1), Some(Answer::WrongEnd)),
    (Call::Run(1), Some(Answer::Ran(End::Aborted(Cause::Asked)))),
    (Call::End(1), Some(Answer::Aborted)),
    (
        Call::Begin(MAYBE, &[]),
        Some(Answer::NotBegun(BeginFault::WrongArguments)),
    ),
    (Call::Begin(MAYBE, &[4]), Some(Answer::Begun(2, 0))),
    (Call::Withdraw(2), Some(Answer::Withdrawn)),
    (Call::Commit(2), Some(Answer::Nothing)),
    (Call::Run(5), Some(Answer::Nothing)),
    (Call::Vacuum, Some(Answer::Vacuumed(0))),
];

/// No program of the set has this number.
const NO_PROGRAM: usize = 3;

// A look at an older number holds what it sees. The number that a vacuum has passed is gone.
const OLDER: &[Wanted] = &[
    (Call::Begin(SET, &[1, 5]), Some(Answer::Begun(0, 0))),
    (Call::Run(0), READY),
    (Call::Commit(0), Some(Answer::Committed(1))),
    (Call::BeginAt(0, LOOK, &[1]), Some(Answer::Begun(1, 0))),
    (Call::Vacuum, Some(Answer::Vacuumed(0))),
    (Call::Withdraw(1), Some(Answer::Withdrawn)),
    (Call::Vacuum, Some(Answer::Vacuumed(1))),
    (
        Call::BeginAt(0, NO_PROGRAM, &[]),
        Some(Answer::NotBegun(BeginFault::NoSuchProgram)),
    ),
    (
        Call::BeginAt(2, LOOK, &[]),
        Some(Answer::NotBegun(BeginFault::WrongArguments)),
    ),
    (
        Call::BeginAt(0, LOOK, &[1]),
        Some(Answer::NotBegun(BeginFault::TooOld { floor: 1 })),
    ),
    (
        Call::BeginAt(2, LOOK, &[1]),
        Some(Answer::NotBegun(BeginFault::TooNew { commits: 1 })),
    ),
    (Call::BeginAt(1, LOOK, &[1]), Some(Answer::Begun(2, 1))),
];

const GREATEST: &[(i64, i64)] = &[(1, i64::MAX), (2, 1)];

const COMMITTED: Case = Case {
    set: REGISTERS,
    rows: &[(1, 0)],
    calls: COMMITS,
    counts: (5, 5),
};

const REFUSED: Case = Case {
    set: OVERFLOW,
    rows: GREATEST,
    calls: REFUSALS,
    counts: (0, 2),
};

const BEGUN_AT: Case = Case {
    set: REGISTERS,
    rows: &[(1, 0)],
    calls: OLDER,
    counts: (1, 1),
};

#[test]
fn both_books_commit_vacuum_and_refuse_alike(rt: HostRuntime) -> Result<(), Fail> {
    for case in &[COMMITTED, REFUSED, BEGUN_AT] {
        check_alike(&rt, rt.alloc(), case)?;
    }
    Ok(())
}
