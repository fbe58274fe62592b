//! What workers tell of jobs, compared with a book.

ghost use Rattle.std.specs.Prelude.{◌≡◌, ◌↔◌, All, IsTrue, IfOk, IfNone, IfSome};
ghost use Rattle.si_workers.specs.Assigned.{assigned_by};
ghost use Rattle.si_workers.specs.Outcomes.{AreCommitsTold, Correspond, IsAllOfJobs};
ghost use Rattle.job_worker.specs.Work.{AreRightTries};
ghost use Rattle.si_workers.specs.Outcomes.{IsBroken, IsCommitOf, IsFirstFallen, IsNamedOnce};
ghost use Rattle.si_workers.specs.Outcomes.{IsOfSomeJob, IsOver, IsRecordOf, IsRightEnd};
ghost use Rattle.si_workers.specs.Outcomes.{IsRightRefusal, Stands, nearly_full};

use crate::assignment::Assignment;
use crate::counts::Counts;
use crate::keys::CallKey;
use crate::told::Tiding;
use history_book::{BeginFault, Book, Ending, HistoryRow, MAX_ENDINGS, same_numbers};
use job_list::{Job, JobEnd};
use std::alloc::{AllocError, Global};

// So many endings let a begin be refused as full while all other workers are active.
fn nearly_full(workers: usize) -> usize
    ensures { result ≡ nearly_full workers }
{
    MAX_ENDINGS.saturating_sub(workers.saturating_sub(1))
}

// ---- one outcome

fn is_record_of(row: &HistoryRow, job: &Job, replies: &[i64]) -> bool
    ensures { IsTrue result ↔ IsRecordOf job.now replies.now row.now }
{
    if row.program != job.program {
        return false;
    }
    let args = same_numbers(row.args.as_slice(), job.args.as_slice());
    let replied = same_numbers(row.replies.as_slice(), replies);
    args && replied
}

// Whether the commit of a number is of the job, with these replies.
fn is_commit_of(book: &Book<'_>, number: u64, job: &Job, replies: &[i64]) -> bool
    ensures { IsTrue result ↔ IsCommitOf book.now.rows number job.now replies.now }
{
    match book.nth_commit(number) {
        Some(row) => is_record_of(row, job, replies),
        None => false,
    }
}

// The same, where no other job names it.
fn is_own_commit(
    book: &Book<'_>,
    counts: &Counts<'_>,
    number: u64,
    job: &Job,
    replies: &[i64],
) -> bool
    ensures { IsTrue result ↔ (IsCommitOf book.now.rows number job.now replies.now
        × IsNamedOnce counts.now.tidings number) }
{
    if !is_commit_of(book, number, job, replies) {
        return false;
    }
    counts.is_named_once(number)
}

fn is_right_refusal(workers: usize, book: &Book<'_>, job: &Job, fault: BeginFault) -> bool
    ensures { IsTrue result ↔ IsRightRefusal workers book.now job.now fault }
{
    let program = book.set().draft().programs.get(job.program);
    match fault {
        BeginFault::NoSuchProgram => program.is_none(),
        BeginFault::WrongArguments => match program {
            Some(found) => found.params.len() != job.args.len(),
            None => false,
        },
        BeginFault::Full => book.endings().len() >= nearly_full(workers),
        BeginFault::TooOld { .. } | BeginFault::TooNew { .. } | BeginFault::Memory => false,
    }
}

fn is_right_end<'c>(
    workers: usize,
    book: &Book<'_>,
    counts: &Counts<'c>,
    job: &'c Job,
    end: &JobEnd,
) -> bool
    requires endings { counts.now.endings ≡ book.now.endings }
    ensures { IsTrue result ↔ IsRightEnd workers book.now counts.now.tidings job.now end.now }
{
    match end {
        JobEnd::Committed { number, replies } => {
            is_own_commit(book, counts, *number, job, replies.as_slice())
        }
        JobEnd::Aborted(cause) => counts.are_aborts_told(CallKey::job(job), *cause),
        JobEnd::Clashed(clash) => counts.is_clash_kept(CallKey::job(job), *clash),
        JobEnd::Refused(fault) => is_right_refusal(workers, book, job, *fault),
    }
}

fn are_right_tries(retries: u32, clashes: u64, end: &JobEnd) -> bool
    ensures { IsTrue result ↔ AreRightTries retries clashes end.now }
{
    let retries = u64::from(retries);
    match end {
        JobEnd::Clashed(_) => clashes == retries + 1,
        JobEnd::Committed { .. } | JobEnd::Aborted(_) | JobEnd::Refused(_) => clashes <= retries,
    }
}

fn stands<'c>(workers: usize, book: &Book<'_>, counts: &Counts<'c>, tiding: &Tiding<'c>) -> bool
    requires endings { counts.now.endings ≡ book.now.endings }
    ensures { IsTrue result ↔ Stands workers book.now counts.now.tidings tiding.now }
{
    let Some(outcome) = tiding.outcome() else {
        return false;
    };
    let right = is_right_end(workers, book, counts, tiding.job, &outcome.job_end);
    let tries = are_right_tries(tiding.job.retries, outcome.clashes, &outcome.job_end);
    right && tries
}

// The first job whose outcome does not stand.
fn first_fallen<'c>(
    workers: usize,
    book: &Book<'_>,
    counts: &Counts<'c>,
    tidings: &[Tiding<'c>],
) -> Option<usize>
    requires endings { counts.now.endings ≡ book.now.endings }
    requires tidings { counts.now.tidings ≡ tidings.now }
    ensures none { IfNone result (All (Stands workers book.now tidings.now) tidings.now) }
    ensures fallen { IfSome result (λ job. IsFirstFallen workers book.now tidings.now job) }
{
    for (job, tiding) in tidings.iter().enumerate() {
        if !stands(workers, book, counts, tiding) {
            return Some(job);
        }
    }
    None
}

// ---- all of them

fn are_all_commits_told(book: &Book<'_>, counts: &Counts<'_>) -> bool
    ensures { IsTrue result ↔ AreCommitsTold book.now.rows counts.now.tidings }
{
    for n in 0..book.commits() {
        if !counts.is_named(n + 1) {
            return false;
        }
    }
    true
}

fn is_of_some_job<'c>(counts: &Counts<'c>, ending: &'c Ending) -> bool
    ensures { IsTrue result ↔ IsOfSomeJob counts.now.tidings ending.now }
{
    match ending {
        Ending::Committed(_) | Ending::Clashed { .. } => true,
        Ending::Aborted { row, cause } => counts.is_abort_told(CallKey::row(row), *cause),
    }
}

fn are_all_of_some_job<'c>(counts: &Counts<'c>, endings: &'c [Ending]) -> bool
    ensures { IsTrue result ↔ All (IsOfSomeJob counts.now.tidings) endings.now }
{
    for ending in endings {
        if !is_of_some_job(counts, ending) {
            return false;
        }
    }
    true
}

fn is_whole<'c>(book: &'c Book<'_>, counts: &Counts<'c>) -> bool
    requires endings { counts.now.endings ≡ book.now.endings }
    ensures { IsTrue result ↔ IsAllOfJobs book.now counts.now.tidings }
{
    if !are_all_commits_told(book, counts) {
        return false;
    }
    if !are_all_of_some_job(counts, book.endings()) {
        return false;
    }
    counts.are_clashes_told()
}

/// Whether a book was opened with the set and the rows that were given.
pub fn is_over(given: Assignment<'_>, book: &Book<'_>) -> bool
    ensures { IsTrue result ↔ IsOver (assigned_by given.entry) book.now }
{
    if !book.set().draft().is_same(given.set.draft()) {
        return false;
    }
    book.opening().is_same(given.opening)
}

/// The job that is named where what the workers tell of the jobs does not correspond to the book:
/// the least one whose outcome does not stand, or job 0 where all stand.
pub fn broken<'c>(
    alloc: Global,
    given: Assignment<'_>,
    tidings: &'c [Tiding<'c>],
    book: &'c Book<'_>,
) -> Result<Option<usize>, AllocError>
    ensures none { IfOk result (λ named. IfNone named
        (Correspond (assigned_by given.entry) tidings.now book.now)) }
    ensures some { IfOk result (λ named. IfSome named
        (λ job. IsBroken (assigned_by given.entry) tidings.now book.now job)) }
{
    let counts = Counts::of(alloc, book.endings(), tidings)?;
    if let Some(job) = first_fallen(given.workers, book, &counts, tidings) {
        return Ok(Some(job));
    }
    if !is_over(given, book) {
        return Ok(Some(0));
    }
    if !is_whole(book, &counts) {
        return Ok(Some(0));
    }
    Ok(None)
}
