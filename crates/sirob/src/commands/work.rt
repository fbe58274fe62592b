//! The command `work`: from the bytes of a list of jobs to what came of them.
ghost use Rattle.std.specs.Prelude.{◌≡◌, false, Ok, IfOk, IfErr, string_bytes};
ghost use Rattle.prog_tree.specs.Tree.{draft_tree};
ghost use Rattle.job_list.specs.JobLines.{jobs_of};
ghost use Rattle.sirob.specs.FaultLines.{is_memory};
ghost use Rattle.sirob.specs.InputFaults.{IsFaultOfPart};
ghost use Rattle.sirob.specs.Inputs.{IsRobust};
ghost use Rattle.sirob.specs.Output.{GivesWork};
ghost use Rattle.sirob.specs.Stops.{IsPartDone, IsFaultOfJobs, WritesWithEnd};
ghost use Rattle.sirob.specs.Work.{ends_in, ways_text, work_text};
ghost use Rattle.sirob.specs.declared.command_line.Mode.TheVariants as mode;

use crate::command_fault::CommandFault;
use crate::commands::robust::{Verified, assess};
use crate::lines::write_lines;
use crate::progress::{JobProgress, Watched};
use crate::sentences::kept::Kept;
use crate::status::Status;
use history_book::Book;
use job_list::{Job, JobList, JobOutcome, Way};
use prog_check::ProgramSet;
use prog_tree::Sequence;
use robust_cert::RobustSet;
use si_engine::{ItemList, Sink, push_rows, read_lines};
use si_workers::{Worked, do_jobs};
use std::alloc::{AllocError, Global};
use std::mem;
use std::rt::Clock;
use std::sync::Wait;
use std::thread::Threads;

// How many jobs ended in a way.
fn ends_in(way: Way, outcomes: &[JobOutcome]) -> usize
    ensures { result ≡ ends_in way outcomes.now }
{
    outcomes.iter().filter(|one| one.job_end.is_in(way)).count()
}

// How many jobs ended in each way.
fn ways_text(alloc: Global, outcomes: &[JobOutcome]) -> Result<String, AllocError>
    ensures { IfOk result (λ text. string_bytes text ≡ ways_text outcomes.now) }
{
    let committed = ends_in(Way::Committed, outcomes);
    let aborted = ends_in(Way::Aborted, outcomes);
    let clashed = ends_in(Way::Clashed, outcomes);
    let refused = ends_in(Way::Refused, outcomes);
    format!(in alloc;
        "committed {committed}\naborted {aborted}\nclashed {clashed}\nrefused {refused}\n"
    )
}

// The lines of counts, and those of the rows that a book leaves.
fn work_text(alloc: Global, outcomes: &[JobOutcome], book: &Book<'_>) -> Result<String, AllocError>
    ensures { IfOk result (λ text. string_bytes text ≡ work_text outcomes.now book.now) }
{
    let table = book.table_rows()?;
    let mut text = ways_text(alloc, outcomes)?;
    push_rows(book.set().draft(), table.as_slice(), &mut text)?;
    Ok(text)
}

// The jobs that the bytes of a part are, for a set that was found robust.
fn jobs_in(alloc: Global, set: &ProgramSet, part: &[u8]) -> Result<JobList, CommandFault>
    ensures ok { IfOk result (λ list. jobs_of (draft_tree set.now) part.now ≡ Ok list) }
    ensures err { IfErr result (λ fault. is_memory fault ≡ false
        → IsFaultOfJobs (draft_tree set.now) part.now fault) }
{
    Ok(read_lines::<JobList>(alloc, set, part)?)
}

// Jobs, what came of them, and the text that says so.
#[derive(Drop)]
struct WorkAnswer {
    text: String,
    jobs: Sequence<Job>,
    outcomes: Sequence<JobOutcome>,
}

// What came of the jobs that the bytes of a part are, on a set that was found robust.
fn work_verified<R: AllocGlobal + Eprint + Clock + Watched + Threads + Wait + Sync>(
    rt: &R,
    workers: u8,
    set: &RobustSet,
    part: &[u8],
) -> Result<WorkAnswer, CommandFault>
    requires { IsRobust (draft_tree set.now) }
    ensures ok { IfOk result (λ done. GivesWork workers (draft_tree set.now) part.now
        (string_bytes done.text)) }
    ensures err { IfErr result (λ fault. is_memory fault ≡ false
        → IsFaultOfPart (mode.Work workers) (draft_tree set.now) part.now fault) }
{
    let alloc = rt.alloc();
    let ItemList { rows, items: jobs } = jobs_in(alloc, set.set(), part)?;
    let gate = JobProgress::new(rt, jobs.len());
    let Worked { outcomes, book } = do_jobs(
        rt,
        alloc,
        set,
        rows,
        jobs.as_slice(),
        usize::from(workers),
        &gate,
    )?;
    let text = work_text(alloc, outcomes.as_slice(), &book)?;
    // The process ends behind the work: the system takes the book's memory back as a whole.
    mem::forget(book);
    Ok(WorkAnswer {
        text,
        jobs,
        outcomes,
    })
}

/// Does the jobs that the bytes of a part are, where the set is robust, and writes what came of
/// them; else writes its refusal, and keeps what refuses it. It keeps the jobs too, and what came
/// of each.
pub fn work_part<R: AllocGlobal + Eprint + Clock + Watched + Threads + Wait + Sync, K: Sink>(
    rt: &R,
    workers: u8,
    set: ProgramSet,
    part: &[u8],
    sink: &mut K,
    kept: &mut Kept,
) -> Result<Status, CommandFault>
    requires { K.has_failed sink.old ≡ false }
    ensures { WritesWithEnd (IsPartDone (mode.Work workers) (draft_tree set) part.now)
        (K.has_failed sink.new) (K.taken sink.old) (K.taken sink.new) result }
{
    match assess(rt, set, kept)? {
        Verified::Robust(set) => {
            let WorkAnswer {
                text,
                jobs,
                outcomes,
            } = work_verified(rt, workers, &set, part)?;
            kept.jobs = jobs;
            kept.outcomes = outcomes;
            write_lines(sink, text.as_bytes(), Ok(Status::Done))
        }
        Verified::Refused(text) => {
            write_lines(sink, text.as_bytes(), Ok(Status::Unserializable))
        }
    }
}
