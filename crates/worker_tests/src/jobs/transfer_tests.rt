//! Many jobs at once, and how much is too much.

use crate::jobs::lists::{Call, hundred_transfers, jobs_of, many, run, run_calls};
use crate::jobs::meeting::Meeting;
use crate::jobs::outcomes::{Came, check_outcomes, commits};
use crate::sets::{MAYBE, OVERFLOW, REGISTERS, TOTAL, TRANSFERS, robust, rows_of};
use history_book::{BeginFault, Book};
use prog_tree::{Cause, Rows};
use robust_cert::RobustSet;
use si_workers::{Finished, Gate, Job, Moment, NoGate, WorkFault, Worked, do_jobs, run_jobs};
use std::alloc::{AllocError, Global};
use std::process::Abort;
use std::sync::Wait;
use std::test::Fail;
use std::thread::Threads;
use std::time::Clock;

const FOUR: [(i64, i64); 4] = [(0, 100), (1, 100), (2, 100), (3, 100)];

// All jobs committed, with the numbers 1 to 100, and the order fits.
fn check_commits(rt: &impl Abort, alloc: Global, finished: &Finished<'_>) {
    let numbers = commits(rt, alloc, finished.outcomes.as_slice());
    assert!(rt; finished.outcomes.len() == 100 && numbers.len() == 100);
    assert!(rt;
        (1..=100)
            .zip(&numbers)
            .all(|(wanted, number)| *number == wanted)
    );
    assert!(rt; finished.book.fits(finished.order.as_slice()) == Ok(true));
}

// Whether a book has these rows.
fn has_rows(alloc: Global, book: &Book<'_>, rows: &[(i64, i64)]) -> Result<bool, AllocError> {
    let wanted = rows_of(alloc, rows)?;
    let is_so = is_table(book, &wanted);
    drop(wanted);
    is_so
}

fn is_table(book: &Book<'_>, wanted: &Rows) -> Result<bool, AllocError> {
    let table = book.table()?;
    let is_same = table.is_same(wanted);
    drop(table);
    Ok(is_same)
}

fn transferred<'a, R: Threads + Wait + Abort + Sync>(
    rt: &R,
    alloc: Global,
    set: &'a RobustSet,
) -> Finished<'a> {
    let jobs = hundred_transfers(alloc).expect(rt, "memory");
    let finished = run(rt, alloc, set, &FOUR, &jobs, 8, &NoGate);
    drop(jobs);
    finished
}

// The rows have to be as at first.
fn check_transfers<R: Threads + Wait + Abort + Sync>(rt: &R, alloc: Global, set: &RobustSet) {
    let finished = transferred(rt, alloc, set);
    check_commits(rt, alloc, &finished);
    assert!(rt; has_rows(alloc, &finished.book, &FOUR) == Ok(true));
    drop(finished);
}

#[test]
fn a_hundred_transfers_commit_once_each(rt: HostRuntime) -> Result<(), Fail> {
    let set = robust(rt.alloc(), &TRANSFERS)?;
    check_transfers(&rt, rt.alloc(), &set);
    drop(set);
    Ok(())
}

const OPENING: [(i64, i64); 2] = [(1, i64::MAX), (2, 1)];

const LEFT: [(i64, i64); 3] = [(1, i64::MAX), (2, 1), (9, 4)];

const CALLS: &[Call] = &[
    (TOTAL, &[], 0),
    (MAYBE, &[-1], 9),
    (MAYBE, &[], 9),
    (MAYBE, &[4], 0),
];

const ENDS: &[(Came, u64)] = &[
    (Came::Aborted(Cause::Overflow), 0),
    (Came::Aborted(Cause::Asked), 0),
    (Came::Refused(BeginFault::WrongArguments), 0),
    (Came::Committed(1, None), 0),
];

fn check_ends<R: Threads + Wait + Abort + Sync>(rt: &R, alloc: Global, set: &RobustSet) {
    let finished = run_calls(rt, alloc, set, &OPENING, CALLS, 1, &NoGate);
    check_outcomes(rt, finished.outcomes.as_slice(), ENDS);
    drop(finished);
}

#[test]
fn jobs_end_in_each_way(rt: HostRuntime) -> Result<(), Fail> {
    let set = robust(rt.alloc(), &OVERFLOW)?;
    check_ends(&rt, rt.alloc(), &set);
    drop(set);
    Ok(())
}

// Does the same jobs by so many workers, without an order.
fn done<'a, R: Threads + Wait + Abort + Sync>(
    rt: &R,
    alloc: Global,
    set: &'a RobustSet,
    jobs: &[Job],
    workers: usize,
) -> Worked<'a> {
    let rows = rows_of(alloc, &OPENING).expect(rt, "memory");
    do_jobs(rt, alloc, set, rows, jobs, workers, &NoGate).expect(rt, "no fault")
}

fn check_worked(rt: &impl Abort, alloc: Global, worked: &Worked<'_>) {
    check_outcomes(rt, worked.outcomes.as_slice(), ENDS);
    assert!(rt; has_rows(alloc, &worked.book, &LEFT) == Ok(true));
}

// However many workers there are, the jobs end in the same ways: none looks at what one changes.
fn check_done<R: Threads + Wait + Abort + Sync>(
    rt: &R,
    alloc: Global,
    set: &RobustSet,
    jobs: &[Job],
) {
    for workers in &[1, 2, 8] {
        let worked = done(rt, alloc, set, jobs, *workers);
        check_worked(rt, alloc, &worked);
        drop(worked);
    }
}

#[test]
fn jobs_are_done_without_an_order(rt: HostRuntime) -> Result<(), Fail> {
    let jobs = jobs_of(rt.alloc(), CALLS)?;
    let set = robust(rt.alloc(), &OVERFLOW)?;
    check_done(&rt, rt.alloc(), &set, &jobs);
    drop(set);
    drop(jobs);
    Ok(())
}

/// What jobs are refused for before any worker starts.
#[derive(Clone, Copy, PartialEq, Eq)]
enum Refusal {
    Workers,
    TooManyJobs,
}

fn refusal_of(ran: &Result<Finished<'_>, WorkFault<'_>>) -> Option<Refusal> {
    match ran {
        Err(WorkFault::Workers) => Some(Refusal::Workers),
        Err(WorkFault::TooManyJobs) => Some(Refusal::TooManyJobs),
        _ => None,
    }
}

// What jobs without rows are refused for.
fn refused<R: Threads + Wait + Abort + Sync, G: Gate + Sync>(
    rt: &R,
    alloc: Global,
    set: &RobustSet,
    jobs: &[Job],
    workers: usize,
    gate: &G,
) -> Option<Refusal> {
    let ran = run_jobs(rt, alloc, set, Rows::new(alloc), jobs, workers, gate);
    let refusal = refusal_of(&ran);
    drop(ran);
    refusal
}

// Runs so many jobs by so many workers: they have to be refused, and nothing is started.
fn check_refused<R: Threads + Wait + Clock + Abort + Sync>(
    rt: &R,
    alloc: Global,
    set: &RobustSet,
    workers: usize,
    count: usize,
    wanted: Refusal,
) {
    let jobs = many(alloc, count).expect(rt, "memory");
    let gate = Meeting::new(rt, &[]);
    let refusal = refused(rt, alloc, set, &jobs, workers, &gate);
    drop(jobs);
    assert!(rt; refusal == Some(wanted), "{count} jobs by {workers}");
    assert!(rt; !gate.came((0, Moment::Begun)));
}

const ASKED: [(usize, usize, Refusal); 4] = [
    (0, 1, Refusal::Workers),
    (9, 1, Refusal::Workers),
    (9, 100_001, Refusal::Workers),
    (8, 100_001, Refusal::TooManyJobs),
];

#[test]
fn none_and_too_many_start_nothing(rt: HostRuntime) -> Result<(), Fail> {
    let set = robust(rt.alloc(), &REGISTERS)?;
    for (workers, count, wanted) in &ASKED {
        check_refused(&rt, rt.alloc(), &set, *workers, *count, *wanted);
    }
    drop(set);
    Ok(())
}
