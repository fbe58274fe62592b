//! The threads that workers run in.

ghost use Rattle.std.specs.Prelude.{◌≡◌, ◌≤◌, ◌<◌, ◌+◌, ◌*◌, [], length};
ghost use Rattle.job_counter.specs.Passes.{counter_of, left_of, name_of, numbers_of};

use crate::desk::Locked;
use crate::gate::Gate;
use crate::limits::MAX_WORKERS;
use crate::lock::reading;
use crate::logged_book::SharedLoggedBook;
use job_counter::{Counter, Pass};
use job_list::Job;
use job_worker::{Done, MAX_JOBS, work};
use prog_check::ProgramSet;
use state_log::Naming;
use std::alloc::{AllocError, Global};
use std::sync::Wait;
use std::thread;
use std::thread::{JoinHandle, Scope, Threads};

// What the workers of a run share.
#[derive(Drop)]
pub(crate) struct Shift<'e, 'a, R: Wait, G: Gate, J: Naming> {
    rt: &'e R,
    alloc: Global,
    set: &'a ProgramSet,
    shared: &'e SharedLoggedBook<'a, J>,
    jobs: &'e [Job],
    counter: &'e Counter,
    gate: &'e G,
}

// One worker over the shared book.
fn work_shared<R: Wait, G: Gate, J: Naming>(shift: &Shift<'_, '_, R, G, J>, pass: Pass) -> Done
    requires counter { counter_of pass ≡ name_of shift.now.counter.now }
    requires numbers { numbers_of pass ≡ [] }
    requires few { length shift.now.jobs.now ≤ MAX_JOBS }
{
    let mut desk = Locked {
        rt: shift.rt,
        shared: shift.shared,
        gate: shift.gate,
        front: reading(&shift.shared.lock, shift.rt).front(),
        ended: 0,
        last: None,
    };
    work(
        shift.alloc,
        shift.set,
        &mut desk,
        shift.jobs,
        shift.counter,
        pass,
    )
}

// Starts workers until one cannot be started.
fn start_all<'s, 'e: 's, 'a: 'e, R: Threads + Wait + Sync, G: Gate + Sync, J: Naming + Send + Sync>(
    scope: &'s Scope<'s, &'e ()>,
    shift: &'e Shift<'e, 'a, R, G, J>,
    mut pass: Pass,
    workers: usize,
    handles: &mut Vec<JoinHandle<Done>>,
)
    requires counter { counter_of pass ≡ name_of shift.now.counter.now }
    requires room { workers * length shift.now.jobs.now ≤ left_of pass }
    requires few { length shift.now.jobs.now ≤ MAX_JOBS }
{
    for _worker in 0..workers {
        if handles.reserve(1).is_err() {
            break;
        }
        let (rest, mine) = shift.counter.split(pass, shift.jobs.len() as u64);
        pass = rest;
        let started = scope.spawn(
            move || -> Done
                requires { (counter_of mine ≡ name_of shift.now.counter.now)
                    × (numbers_of mine ≡ []) × (length shift.now.jobs.now ≤ MAX_JOBS) }
            { work_shared(shift, mine) },
        );
        let Ok(handle) = started else {
            break;
        };
        handles.push_reserved(handle);
    }
}

/// What the workers did that could be started. All are joined. Without memory none was started,
/// as the room for what they did is made before.
pub(crate) fn run_threads<'a, R: Threads + Wait + Sync, G: Gate + Sync, J: Naming + Send + Sync>(
    rt: &R,
    alloc: Global,
    set: &'a ProgramSet,
    shared: &SharedLoggedBook<'a, J>,
    jobs: &[Job],
    workers: usize,
    gate: &G,
) -> Result<Vec<Done>, AllocError>
    requires workers { workers ≤ MAX_WORKERS }
    requires few { length jobs.now ≤ MAX_JOBS }
{
    let (counter, pass) = Counter::open(alloc, workers as u64 * jobs.len() as u64)?;
    let mut done = Vec::with_capacity(alloc, workers)?;
    let mut handles = Vec::with_capacity(alloc, workers)?;
    let shift = Shift {
        rt,
        alloc,
        set,
        shared,
        jobs,
        counter: &counter,
        gate,
    };
    let lent = &shift;
    thread::scope(
        thread::scope_env(),
        rt,
        |scope|
            requires { (counter_of pass ≡ name_of lent.now.counter.now)
                × (workers * length lent.now.jobs.now ≤ left_of pass)
                × (length lent.now.jobs.now ≤ MAX_JOBS) }
        { start_all(scope, lent, pass, workers, &mut handles) },
    );
    // `done` has room for all of them; no clause of the scope says how many handles there are.
    let mut lacked = false;
    for handle in handles {
        let pushed = done.push(handle.join(rt));
        lacked |= pushed.is_err();
    }
    if lacked {
        return Err(AllocError);
    }
    Ok(done)
}
