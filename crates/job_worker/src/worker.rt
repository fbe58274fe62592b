//! One worker: the jobs that it draws, one after another.

ghost use Rattle.std.specs.Prelude.{◌≡◌, ◌+◌, ◌<◌, ◌≤◌, ◌^◌, [], length, Some, IfOk, OnOk};
ghost use Rattle.prog_tree.specs.declared.deed.End.TheVariants.{Ready};
ghost use Rattle.prog_run.specs.declared.next.Next.TheVariants.{Scan};
ghost use Rattle.job_counter.specs.Passes.{counter_of, name_of, numbers_of};
ghost use Rattle.job_worker.specs.Ended.{ended_by_try};
ghost use Rattle.job_worker.specs.KnownStates.{IsFoundIn};
ghost use Rattle.job_worker.specs.LastAnswer.{IsLastAnswer};
ghost use Rattle.job_worker.specs.Work.{AreDrawn, HasCause, HasReplies, IsDrawn, IsReported};
ghost use Rattle.job_worker.specs.Work.{TellsTries};

use crate::desk::Desk;
use crate::limits::{MAX_JOBS, VACUUM_AFTER};
use crate::stop::Stop;
use history_book::{BeginFault, CommitFault, EndFault, Ticket, Unused};
use job_counter::{Counter, Pass};
use job_list::{Job, JobEnd, JobOutcome};
use prog_check::ProgramSet;
use prog_run::{Next, Run};
use prog_tree::{Cause, End, Region, Sequence};
use std::alloc::Global;

/// What a worker did: its pass, what came of its jobs, and whether memory ran out.
#[derive(Drop)]
pub struct Done {
    pub pass: Pass,
    pub reports: Vec<(usize, JobOutcome)>,
    pub no_memory: bool,
}

// Answers a run that asks for a region. The book is not asked for what the run has just looked at.
fn answer_region<'a, D: Desk<'a>>(
    desk: &mut D,
    job: usize,
    ticket: &Ticket,
    run: &mut Run<'a>,
    region: &Region,
) -> Result<Next, Stop>
    requires asked { run.old.asked ≡ Some (Scan region.now) }
    requires found { IsFoundIn (D.known desk.old) ticket.now.start run.old }
    ensures ended { D.ended desk.new ≡ D.ended desk.old }
    ensures known { D.known desk.new ≡ D.known desk.old }
    ensures found { OnOk result (IsFoundIn (D.known desk.old) ticket.now.start run.new) }
{
    if let Some(rows) = run.rows_again(region) {
        let shared = rows.share()?;
        return Ok(run.answer_rows(shared)?);
    }
    let rows = desk.scan(job, ticket, region)?;
    Ok(run.answer_rows(rows)?)
}

// One step of a run, with what it asks for read in the book.
fn step<'a, D: Desk<'a>>(
    desk: &mut D,
    job: usize,
    ticket: &Ticket,
    run: &mut Run<'a>,
) -> Result<Next, Stop>
    requires { IsFoundIn (D.known desk.old) ticket.now.start run.old }
    ensures ended { D.ended desk.new ≡ D.ended desk.old }
    ensures known { D.known desk.new ≡ D.known desk.old }
    ensures found { OnOk result (IsFoundIn (D.known desk.old) ticket.now.start run.new) }
{
    let next = run.advance()?;
    match next {
        Next::Get(cell) => {
            let held = desk.get(job, ticket, &cell)?;
            Ok(run.answer_get(held)?)
        }
        Next::Scan(region) => answer_region(desk, job, ticket, run, &region),
        next => Ok(next),
    }
}

// Goes on with a run to its end.
fn finish<'a, D: Desk<'a>>(
    desk: &mut D,
    job: usize,
    ticket: &Ticket,
    run: &mut Run<'a>,
) -> Result<End, Stop>
    requires { IsFoundIn (D.known desk.old) ticket.now.start run.old }
    ensures ended { D.ended desk.new ≡ D.ended desk.old }
    ensures known { D.known desk.new ≡ D.known desk.old }
    ensures found { OnOk result (IsFoundIn (D.known desk.old) ticket.now.start run.new) }
{
    for _turn in 0..u64::MAX {
        if let Next::Done(end) = step(desk, job, ticket, run)? {
            return Ok(end);
        }
    }
    Err(Stop::Lost)
}

// Commits a run that is ready, with the replies that it has.
fn commit<'a, D: Desk<'a>>(
    alloc: Global,
    desk: &mut D,
    ticket: Ticket,
    run: Run<'a>,
) -> Result<JobEnd, Stop>
    requires room { D.ended desk.old < 2 ^ 63 }
    requires found { IsFoundIn (D.known desk.old) ticket.start run }
    ensures ended { D.ended desk.new ≡ D.ended desk.old + ended_by_try result }
    ensures last { IfOk result (IsLastAnswer (D.last desk.new)) }
    ensures replies { IfOk result (HasReplies run.entry.replies) }
{
    let Ok(replies) = Sequence::from_slice(alloc, run.replies()) else {
        desk.withdraw(ticket);
        return Err(Stop::NoMemory);
    };
    match desk.commit(ticket, run) {
        Ok(number) => Ok(JobEnd::Committed { number, replies }),
        Err(CommitFault::Clashed(clash)) => Ok(JobEnd::Clashed(clash)),
        Err(CommitFault::Memory(Unused { ticket, run })) => {
            drop(run);
            desk.withdraw(ticket);
            Err(Stop::NoMemory)
        }
        Err(
            CommitFault::NoSuchTicket(_unused)
            | CommitFault::NotReady(_unused)
            | CommitFault::ForeignRun(_, _unused),
        ) => Err(Stop::Lost),
    }
}

// Ends a run that has aborted.
fn abort<'a, D: Desk<'a>>(
    desk: &mut D,
    ticket: Ticket,
    run: Run<'a>,
    cause: Cause,
) -> Result<JobEnd, Stop>
    requires room { D.ended desk.old < 2 ^ 63 }
    requires found { IsFoundIn (D.known desk.old) ticket.start run }
    ensures ended { D.ended desk.new ≡ D.ended desk.old + ended_by_try result }
    ensures last { IfOk result (IsLastAnswer (D.last desk.new)) }
    ensures cause { IfOk result (HasCause cause) }
{
    match desk.end(ticket, run) {
        Ok(()) => Ok(JobEnd::Aborted(cause)),
        Err(EndFault::Memory(Unused { ticket, run })) => {
            drop(run);
            desk.withdraw(ticket);
            Err(Stop::NoMemory)
        }
        Err(
            EndFault::NoSuchTicket(_unused)
            | EndFault::NotAborted(_unused)
            | EndFault::ForeignRun(_, _unused),
        ) => Err(Stop::Lost),
    }
}

// One try of a job, from its begin to its end.
fn try_once<'a, D: Desk<'a>>(
    alloc: Global,
    set: &'a ProgramSet,
    desk: &mut D,
    number: usize,
    job: &Job,
) -> Result<JobEnd, Stop>
    requires { D.ended desk.old < 2 ^ 63 }
    ensures ended { D.ended desk.new ≡ D.ended desk.old + ended_by_try result }
    ensures last { IfOk result (IsLastAnswer (D.last desk.new)) }
{
    let ticket = match desk.begin(number, job.program, job.args.as_slice()) {
        Ok(ticket) => ticket,
        Err(BeginFault::Memory) => return Err(Stop::NoMemory),
        Err(fault) => return Ok(JobEnd::Refused(fault)),
    };
    let Ok(mut run) = Run::new(alloc, set, job.program, job.args.as_slice()) else {
        desk.withdraw(ticket);
        return Err(Stop::NoMemory);
    };
    match finish(desk, number, &ticket, &mut run) {
        Ok(End::Ready) => commit(alloc, desk, ticket, run),
        Ok(End::Aborted(cause)) => abort(desk, ticket, run, cause),
        Err(stop) => {
            desk.withdraw(ticket);
            Err(stop)
        }
    }
}

// A job, begun anew where it clashes, up to its retries.
fn run_job<'a, D: Desk<'a>>(
    alloc: Global,
    set: &'a ProgramSet,
    desk: &mut D,
    number: usize,
    job: &Job,
) -> Result<JobOutcome, Stop>
    requires { D.ended desk.old + 2 ^ 32 ≤ 2 ^ 63 }
    ensures over { TellsTries job.now (D.ended desk.old) (D.ended desk.new) result }
    ensures last { IfOk result (λ outcome. IsLastAnswer (D.last desk.new) outcome.job_end) }
    ensures few { D.ended desk.new ≤ D.ended desk.old + 2 ^ 32 }
{
    let tries = u64::from(job.retries) + 1;
    for clashes in 0..tries {
        let job_end = try_once(alloc, set, desk, number, job)?;
        match job_end {
            JobEnd::Clashed(_) => {
                if clashes + 1 < tries {
                    continue;
                }
                return Ok(JobOutcome {
                    job_end,
                    clashes: tries,
                });
            }
            JobEnd::Committed { .. } | JobEnd::Aborted(_) | JobEnd::Refused(_) => {
                return Ok(JobOutcome { job_end, clashes });
            }
        }
    }
    unreachable!()
}

// Draws a job and runs it, if there is one left.
fn draw_job<'a, D: Desk<'a>>(
    alloc: Global,
    set: &'a ProgramSet,
    desk: &mut D,
    jobs: &[Job],
    counter: &Counter,
    pass: &mut Pass,
) -> Result<Option<(usize, JobOutcome)>, Stop>
    requires counter { counter_of pass.old ≡ name_of counter.now }
    requires room { D.ended desk.old + 2 ^ 32 ≤ 2 ^ 63 }
    ensures counter { counter_of pass.new ≡ counter_of pass.old }
    ensures few { D.ended desk.new ≤ D.ended desk.old + 2 ^ 32 }
    ensures drawn { IsDrawn (numbers_of pass.old) (numbers_of pass.new) result }
    ensures reported { IsReported jobs.now
        (D.ended desk.old) (D.ended desk.new) (D.last desk.new) result }
{
    let Some(drawn) = counter.draw(pass) else {
        return Ok(None);
    };
    let number = drawn as usize;
    let Some(job) = jobs.get(number) else {
        return Ok(None);
    };
    let outcome = run_job(alloc, set, desk, number, job)?;
    desk.finished(number);
    Ok(Some((number, outcome)))
}

/// Draws jobs and runs them, until none is left.
pub fn work<'a, D: Desk<'a>>(
    alloc: Global,
    set: &'a ProgramSet,
    desk: &mut D,
    jobs: &[Job],
    counter: &Counter,
    mut pass: Pass,
) -> Done
    requires counter { counter_of pass ≡ name_of counter.now }
    requires numbers { numbers_of pass ≡ [] }
    requires few { length jobs.now ≤ MAX_JOBS }
    requires ended { D.ended desk.old ≡ 0 }
    ensures counter { counter_of result.pass ≡ counter_of pass }
    ensures drawn { AreDrawn result.reports.items (numbers_of result.pass) }
{
    let mut reports = Vec::new(alloc);
    let mut no_memory = false;
    for _turn in 0..jobs.len() {
        if reports.reserve(1).is_err() {
            no_memory = true;
            break;
        }
        match draw_job(alloc, set, desk, jobs, counter, &mut pass) {
            Ok(Some(report)) => reports.push_reserved(report),
            Ok(None) | Err(Stop::Lost) => break,
            Err(Stop::NoMemory) => {
                no_memory = true;
                break;
            }
        }
        if reports.len() % VACUUM_AFTER == 0 {
            desk.vacuum();
        }
    }
    Done {
        pass,
        reports,
        no_memory,
    }
}
