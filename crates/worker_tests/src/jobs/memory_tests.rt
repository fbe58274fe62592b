//! Jobs for which there may be too little memory, or too few threads: `tests/memory-in-workers`
//! runs this test with requests refused.

use crate::book::kept::have_same_rows;
use crate::jobs::lists::{Call, jobs_of};
use crate::sets::{CUT, LOOK, REGISTERS, SET, robust, rows_of};
use history_book::{AuditFault, Book, HistoryRow, OrderFault};
use robust_cert::RobustSet;
use si_workers::{Finished, Job, NoGate, WorkFault, run_jobs};
use std::alloc::{AllocError, Global};
use std::process::Abort;
use std::sync::Wait;
use std::test::Fail;
use std::thread::Threads;

const WORKERS: usize = 2;

/// Twenty jobs on two cells, some of which clash where their turns are so.
const CALLS: [Call; 20] = [
    (SET, &[1, 10], 9),
    (SET, &[1, 11], 9),
    (LOOK, &[1], 9),
    (CUT, &[2], 9),
    (SET, &[2, 12], 0),
    (SET, &[1, 13], 9),
    (CUT, &[1], 9),
    (LOOK, &[2], 9),
    (SET, &[2, 14], 9),
    (CUT, &[1], 0),
    (SET, &[1, 15], 9),
    (SET, &[2, 16], 9),
    (LOOK, &[1], 9),
    (CUT, &[2], 9),
    (SET, &[2, 17], 9),
    (SET, &[1, 18], 9),
    (LOOK, &[2], 0),
    (CUT, &[1], 9),
    (SET, &[1, 19], 9),
    (LOOK, &[1], 9),
];

fn copy(row: &HistoryRow) -> Result<HistoryRow, AllocError> {
    Ok(HistoryRow {
        program: row.program,
        args: row.args.copy()?,
        start: row.start,
        replies: row.replies.copy()?,
    })
}

// The commits of a book, as rows to be given.
fn rows_in(alloc: Global, book: &Book<'_>) -> Result<Vec<HistoryRow>, AllocError> {
    let mut rows = Vec::new(alloc);
    for number in 1..=book.commits() {
        if let Some(row) = book.nth_commit(number) {
            rows.push(copy(row)?)?;
        }
    }
    Ok(rows)
}

// Whether a book has as many commits as another, and the same table. It is let go.
fn is_same_book(audited: Book<'_>, book: &Book<'_>) -> Result<bool, AllocError> {
    let has_commits = audited.commits() == book.commits();
    let is_same = have_same_rows(&audited, book);
    drop(audited);
    Ok(is_same? && has_commits)
}

// Whether the commits of a book, given as rows, have a book with the same table.
fn is_right(alloc: Global, book: &Book<'_>) -> Result<bool, AllocError> {
    let rows = rows_in(alloc, book)?;
    let opening = book.opening().copy()?;
    match Book::audit(alloc, book.set(), opening, rows) {
        Ok(audited) => is_same_book(audited, book),
        Err(AuditFault::Memory) => Err(AllocError),
        Err(_) => Ok(false),
    }
}

// Whether the commits of a book have an order that fits.
fn is_serial(book: &Book<'_>) -> Result<bool, AllocError> {
    match book.serial_order() {
        Ok(order) => book.fits(order.as_slice()),
        Err(OrderFault::Memory) => Err(AllocError),
        Err(OrderFault::Cycle(_)) => Ok(false),
    }
}

// Where a check has no memory of its own, it says nothing.
fn check_book(rt: &impl Abort, alloc: Global, book: &Book<'_>) {
    assert!(rt; is_right(alloc, book).unwrap_or(true));
    assert!(rt; is_serial(book).unwrap_or(true));
}

// Each job has an outcome, but where no worker started.
fn check_work(rt: &impl Abort, alloc: Global, started: usize, outcomes: usize, book: &Book<'_>) {
    let wanted = if started == 0 { 0 } else { CALLS.len() };
    assert!(rt; outcomes == wanted);
    check_book(rt, alloc, book);
}

// Jobs that were done, or for which there were too few threads or too little memory.
fn check_answer(
    rt: &impl Abort,
    alloc: Global,
    answer: &Result<Finished<'_>, WorkFault<'_>>,
) -> bool {
    match answer {
        Ok(finished) => check_work(rt, alloc, WORKERS, finished.outcomes.len(), &finished.book),
        Err(
            WorkFault::NoThread {
                started,
                outcomes,
                book,
            },
        ) => {
            assert!(rt; *started < WORKERS);
            check_work(rt, alloc, *started, outcomes.len(), book);
        }
        Err(WorkFault::Memory { book: Some(book) }) => check_book(rt, alloc, book),
        Err(WorkFault::Memory { book: None }) => {}
        Err(_) => return false,
    }
    true
}

// Runs jobs, and looks at what comes of them.
fn check_jobs<R: Threads + Wait + Abort + Sync>(
    rt: &R,
    alloc: Global,
    set: &RobustSet,
    jobs: &[Job],
) -> Result<bool, AllocError> {
    let rows = rows_of(alloc, &[(1, 5)])?;
    let answer = run_jobs(rt, alloc, set, rows, jobs, WORKERS, &NoGate);
    let is_right = check_answer(rt, alloc, &answer);
    drop(answer);
    Ok(is_right)
}

// Until it has its jobs and its rows, a want of memory is an error of the test.
#[test]
fn refused_requests_leave_a_right_book(rt: HostRuntime) -> Result<(), Fail> {
    let jobs = jobs_of(rt.alloc(), &CALLS)?;
    let set = robust(rt.alloc(), &REGISTERS)?;
    let checked = check_jobs(&rt, rt.alloc(), &set, &jobs);
    drop(set);
    drop(jobs);
    assert!(rt; checked?);
    Ok(())
}
