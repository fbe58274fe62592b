//! Lines of a list of jobs.
ghost use Rattle.std.specs.Prelude.{◌≡◌};
ghost use Rattle.prog_tree.specs.Tree.{draft_tree};
ghost use Rattle.si_engine.specs.LineFaults.{Reads};
ghost use Rattle.job_list.specs.JobLines.{retries_of, job_of};

use crate::job::Job;
use prog_check::ProgramSet;
use si_engine::{LineFault, LineWord, ListItem, number, numbers, program_number};
use std::alloc::Global;

// How often a job may be begun anew.
fn retries(word: &LineWord<'_>) -> Option<u32>
    ensures { result ≡ retries_of word.now }
{
    u32::try_from(number(word.as_bytes())?).ok()
}

// The job that the words behind `job` are, or the line's fault.
#[tactic(auto, unfolding(crate::specs::JobLines::job_of))]
fn job(
    alloc: Global,
    set: &ProgramSet,
    line: usize,
    words: &[LineWord<'_>],
) -> Result<Job, LineFault>
    ensures { Reads (λ job. job) result (job_of (draft_tree set.now) line words.now) }
{
    let [times, name, args @ ..] = words else {
        return Err(LineFault::BadLine { line });
    };
    let retries = retries(times).ok_or(LineFault::BadLine { line })?;
    let args = numbers(alloc, args)?.ok_or(LineFault::BadLine { line })?;
    let program = program_number(set, name.as_bytes()).ok_or(LineFault::UnknownName { line })?;
    Ok(Job {
        program,
        args,
        retries,
    })
}

impl ListItem for Job {
    ghost use Rattle.std.specs.Prelude.{codes};
    ghost use Rattle.job_list.specs.JobLines.{job_of};

    ghost keyword = { codes "job" };

    ghost item_of = { job_of };

    fn item_word() -> &'static [u8] {
        b"job".as_slice()
    }

    fn read(
        alloc: Global,
        set: &ProgramSet,
        line: usize,
        words: &[LineWord<'_>],
    ) -> Result<Self, LineFault> {
        job(alloc, set, line, words)
    }
}
