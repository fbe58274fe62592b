//! Jobs, run by workers.

ghost use Rattle.std.specs.Prelude.{◌≡◌, ◌≢◌, ◌≤◌, All, IfOk, IfErr, None, length};
ghost use Rattle.history_book.specs.TrueBook.{IsTrueBook};
ghost use Rattle.prog_tree.specs.Tree.{draft_tree};
ghost use Rattle.prog_check.specs.Paths.{paths_of};
ghost use Rattle.prog_paths.specs.StaticGraph.{IsDangerous};
ghost use Rattle.si_workers.specs.Assigned.{assigned, assigned_by};
ghost use Rattle.si_workers.specs.Settled.{AreOutcomesIn, IsCompared, IsConcluded, IsHandedOut};
ghost use Rattle.si_workers.specs.Settled.{IsOrderOf, IsPutInOrder, IsSettled, IsWorkCompared};
ghost use Rattle.si_workers.specs.Settled.{lack_memory};
ghost use Rattle.si_workers.specs.Work.{AreDone, IsWorkFault, jobs_by, outcome_at};

use crate::assignment::Assignment;
use crate::comparing::{broken, is_over};
use crate::fault::WorkFault;
use crate::gate::Gate;
use crate::limits::MAX_WORKERS;
use crate::logged_book::SharedLoggedBook;
use crate::threads::run_threads;
use crate::told::{Tiding, gather};
use history_book::Book;
use job_list::{Job, JobOutcome};
use job_worker::{Done, MAX_JOBS};
use prog_tree::{Rows, Sequence};
use robust_cert::RobustSet;
use si_engine::order_of;
use state_log::{Naming, Opened};
use std::alloc::{AllocError, Global};
use std::marker::Brand;
use std::sync::Wait;
use std::thread::Threads;

/// What came of jobs: the outcome of each, and the book.
#[derive(Debug, Drop)]
pub struct Worked<'a> {
    pub outcomes: Sequence<JobOutcome>,
    pub book: Book<'a>,
}

/// What came of jobs: the outcome of each, a serial order of the commits, and the book.
#[derive(Debug, Drop)]
pub struct Finished<'a> {
    pub outcomes: Sequence<JobOutcome>,
    /// The commits by their numbers, which begin at 1.
    pub order: Sequence<usize>,
    pub book: Book<'a>,
}

/// What is told of jobs, beside a book.
#[derive(Debug, Drop)]
pub enum Compared {
    /// It corresponds to the book, with these outcomes.
    Correspond(Vec<JobOutcome>),
    /// It does not, as this job shows, of which there is this outcome.
    Broken {
        job: usize,
        outcome: Option<JobOutcome>,
    },
}

// ---- what is told, compared with a book

// The outcomes of jobs of each of which there is one.
fn into_outcomes(alloc: Global, tidings: Vec<Tiding<'_>>) -> Result<Vec<JobOutcome>, AllocError>
    requires { All (λ t. t.1 ≢ None) tidings.items }
    ensures { IfOk result (λ outcomes. AreOutcomesIn tidings.entry.items outcomes.items) }
{
    let mut outcomes = Vec::with_capacity(alloc, tidings.len())?;
    for tiding in tidings {
        let Some(outcome) = tiding.into_outcome() else {
            unreachable!()
        };
        outcomes.push(outcome)?;
    }
    Ok(outcomes)
}

// The outcome of one job, where there is exactly one.
fn into_outcome(mut tidings: Vec<Tiding<'_>>, job: usize) -> Option<JobOutcome>
    ensures { result ≡ outcome_at tidings.entry.items job }
{
    if job < tidings.len() {
        tidings.swap_remove(job).into_outcome()
    } else {
        None
    }
}

fn compare(
    alloc: Global,
    given: Assignment<'_>,
    tidings: Vec<Tiding<'_>>,
    book: &Book<'_>,
) -> Result<Compared, AllocError>
    ensures { IfOk result
        (IsCompared (assigned_by given.entry) tidings.entry.items book.now) }
{
    let named = broken(alloc, given, &tidings, book)?;
    match named {
        Some(job) => {
            let outcome = into_outcome(tidings, job);
            Ok(Compared::Broken { job, outcome })
        }
        None => {
            let outcomes = into_outcomes(alloc, tidings)?;
            Ok(Compared::Correspond(outcomes))
        }
    }
}

// ---- work that was done

fn lack_memory(done: &[Done]) -> bool
    ensures { result ≡ lack_memory done.now }
{
    done.iter().any(|one| one.no_memory)
}

// The jobs that so many threads did: with none started none was done.
fn jobs_by(started: usize, jobs: &[Job]) -> &[Job]
    ensures { result.now ≡ jobs_by started jobs.now }
{
    if started == 0 { &jobs[..0] } else { jobs }
}

// The book, to hand out where memory ran out: none that was opened with another set or other rows.
fn book_over<'a>(given: Assignment<'_>, book: Book<'a>) -> Option<Book<'a>>
    ensures { IsHandedOut (assigned_by given.entry) book.entry result }
{
    if is_over(given, &book) {
        Some(book)
    } else {
        None
    }
}

// Work whose outcomes correspond to the book, and which is well where enough workers started.
fn conclude<'a>(
    workers: usize,
    started: usize,
    outcomes: Vec<JobOutcome>,
    book: Book<'a>,
) -> Result<Worked<'a>, WorkFault<'a>>
    ensures { IsConcluded workers started outcomes.items book.entry result }
{
    let outcomes = Sequence::from_vec(outcomes);
    if started < workers {
        return Err(WorkFault::NoThread {
            started,
            outcomes,
            book,
        });
    }
    Ok(Worked { outcomes, book })
}

// What workers did, compared with the book that they leave: memory lacks where some worker lacked
// it, too.
fn compare_work(
    alloc: Global,
    given: Assignment<'_>,
    jobs: &[Job],
    done: Vec<Done>,
    book: &Book<'_>,
) -> Result<Compared, AllocError>
    ensures { IfOk result (IsWorkCompared (assigned_by given.entry) jobs.now done.items book.now) }
{
    if lack_memory(&done) {
        return Err(AllocError);
    }
    let tidings = gather(alloc, jobs_by(done.len(), jobs), done)?;
    compare(alloc, given, tidings, book)
}

// What workers did, settled by the book that they leave.
fn settle<'a>(
    alloc: Global,
    given: Assignment<'_>,
    jobs: &[Job],
    done: Vec<Done>,
    book: Book<'a>,
) -> Result<Worked<'a>, WorkFault<'a>>
    ensures { IsSettled (assigned_by given.entry) jobs.now done.items book.entry result }
{
    let started = done.len();
    match compare_work(alloc, given, jobs, done, &book) {
        Ok(Compared::Correspond(outcomes)) => conclude(given.workers, started, outcomes, book),
        Ok(Compared::Broken { job, outcome }) => Err(WorkFault::Broken { job, outcome, book }),
        Err(AllocError) => {
            let book = book_over(given, book);
            Err(WorkFault::Memory { book })
        }
    }
}

// What the workers did over a book, and the book that they leave.
fn run_logged<'a, R: Threads + Wait + Sync, G: Gate + Sync, J: Naming + Send + Sync>(
    rt: &R,
    alloc: Global,
    book: Book<'a>,
    opened: Opened,
    jobs: &[Job],
    workers: usize,
    gate: &G,
) -> (Result<Vec<Done>, AllocError>, Book<'a>)
    requires named { opened.seen.book ≡ J.book }
    requires workers { workers ≤ MAX_WORKERS }
    requires few { length jobs.now ≤ MAX_JOBS }
    ensures { IsTrueBook result.1 }
{
    let set = book.set();
    let shared = SharedLoggedBook::<J>::new(book, opened);
    let ran = run_threads(rt, alloc, set, &shared, jobs, workers, gate);
    (ran, shared.into_book())
}

/// Runs jobs by so many workers at once, and compares what they tell with the book that they leave.
pub fn do_jobs<'a, R: Threads + Wait + Sync, G: Gate + Sync>(
    rt: &R,
    alloc: Global,
    set: &'a RobustSet,
    opening: Rows,
    jobs: &[Job],
    workers: usize,
    gate: &G,
) -> Result<Worked<'a>, WorkFault<'a>>
    ensures done { IfOk result (λ worked.
        AreDone (assigned workers (draft_tree set.now) opening) jobs.now
        worked.outcomes worked.book) }
    ensures safe { IfOk result (λ worked.
        ¬ IsDangerous (paths_of (draft_tree worked.book.set))) }
    ensures fault { IfErr result
        (IsWorkFault (assigned workers (draft_tree set.now) opening) jobs.now) }
{
    if workers == 0 || workers > MAX_WORKERS {
        return Err(WorkFault::Workers);
    }
    if jobs.len() > MAX_JOBS {
        return Err(WorkFault::TooManyJobs);
    }
    let Ok(kept) = opening.copy() else {
        return Err(WorkFault::Memory { book: None });
    };
    let programs = set.set();
    let Ok(book) = Book::open(alloc, programs, opening) else {
        return Err(WorkFault::Memory { book: None });
    };
    let given = Assignment {
        workers,
        set: programs,
        opening: &kept,
    };
    let (ran, book) = run_logged::<R, G, Brand>(
        rt,
        alloc,
        book,
        Opened::new(),
        jobs,
        workers,
        gate,
    );
    let Ok(done) = ran else {
        let book = book_over(given, book);
        return Err(WorkFault::Memory { book });
    };
    settle(alloc, given, jobs, done, book)
}

// Work in the order of its commits.
fn in_order<'a>(worked: Worked<'a>) -> Result<Finished<'a>, WorkFault<'a>>
    requires safe { ¬ IsDangerous (paths_of (draft_tree worked.book.set)) }
    ensures { IsPutInOrder worked.entry result }
{
    let Worked { outcomes, book } = worked;
    let Ok(order) = order_of(&book) else {
        return Err(WorkFault::Memory { book: Some(book) });
    };
    Ok(Finished {
        outcomes,
        order: Sequence::from_vec(order),
        book,
    })
}

/// As `do_jobs`, with a serial order of the commits.
pub fn run_jobs<'a, R: Threads + Wait + Sync, G: Gate + Sync>(
    rt: &R,
    alloc: Global,
    set: &'a RobustSet,
    opening: Rows,
    jobs: &[Job],
    workers: usize,
    gate: &G,
) -> Result<Finished<'a>, WorkFault<'a>>
    ensures done { IfOk result (λ finished.
        AreDone (assigned workers (draft_tree set.now) opening) jobs.now
        finished.outcomes finished.book) }
    ensures order { IfOk result (λ finished. IsOrderOf finished.book finished.order) }
    ensures fault { IfErr result
        (IsWorkFault (assigned workers (draft_tree set.now) opening) jobs.now) }
{
    let worked = do_jobs(rt, alloc, set, opening, jobs, workers, gate)?;
    in_order(worked)
}
