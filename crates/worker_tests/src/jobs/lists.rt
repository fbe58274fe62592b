//! Lists of jobs as plain data, and jobs that are run.

use crate::sets::rows_of;
use prog_tree::Sequence;
use robust_cert::RobustSet;
use si_workers::{Finished, Gate, Job, run_jobs};
use std::alloc::{AllocError, Global};
use std::process::Abort;
use std::sync::Wait;
use std::thread::Threads;

/// The program of a job, its arguments and its retries.
pub type Call = (usize, &'static [i64], u32);

fn job(alloc: Global, program: usize, args: &[i64], retries: u32) -> Result<Job, AllocError> {
    Ok(Job {
        program,
        args: Sequence::from_slice(alloc, args)?,
        retries,
    })
}

/// The jobs of these calls.
pub fn jobs_of(alloc: Global, calls: &[Call]) -> Result<Vec<Job>, AllocError> {
    let mut jobs = Vec::new(alloc);
    for (program, args, retries) in calls {
        jobs.push(job(alloc, *program, args, *retries)?)?;
    }
    Ok(jobs)
}

/// A hundred transfers of 1, round four cells, with 99 retries each.
pub fn hundred_transfers(alloc: Global) -> Result<Vec<Job>, AllocError> {
    let mut jobs = Vec::new(alloc);
    for number in 0..100 {
        jobs.push(job(alloc, 0, &[number % 4, (number + 1) % 4, 1], 99)?)?;
    }
    Ok(jobs)
}

/// So many jobs of the first program, without arguments.
pub fn many(alloc: Global, count: usize) -> Result<Vec<Job>, AllocError> {
    let mut jobs = Vec::new(alloc);
    for _ in 0..count {
        jobs.push(job(alloc, 0, &[], 0)?)?;
    }
    Ok(jobs)
}

/// Runs jobs, which have no fault.
pub fn run<'a, R: Threads + Wait + Abort + Sync, G: Gate + Sync>(
    rt: &R,
    alloc: Global,
    set: &'a RobustSet,
    rows: &[(i64, i64)],
    jobs: &[Job],
    workers: usize,
    gate: &G,
) -> Finished<'a> {
    let rows = rows_of(alloc, rows).expect(rt, "memory");
    run_jobs(rt, alloc, set, rows, jobs, workers, gate).expect(rt, "no fault")
}

/// Runs the jobs of calls, which have no fault.
pub fn run_calls<'a, R: Threads + Wait + Abort + Sync, G: Gate + Sync>(
    rt: &R,
    alloc: Global,
    set: &'a RobustSet,
    rows: &[(i64, i64)],
    calls: &[Call],
    workers: usize,
    gate: &G,
) -> Finished<'a> {
    let jobs = jobs_of(alloc, calls).expect(rt, "memory");
    let finished = run(rt, alloc, set, rows, &jobs, workers, gate);
    drop(jobs);
    finished
}
