//! What keeps workers from doing jobs, and which jobs did not commit, as it is said to people.

use crate::sentences::kept::Kept;
use crate::sentences::kept_input::KeptInput;
use job_list::Way;
use run_words::{ToldJobs, lost_job_words};
use si_workers::{MAX_JOBS, MAX_WORKERS, WorkerFault};
use std::alloc::{AllocError, Global};

/// Which jobs did not commit.
pub fn lost_sentence(alloc: Global, kept: &Kept) -> Result<Option<String>, AllocError> {
    let outcomes = kept.outcomes.as_slice();
    if outcomes
        .iter()
        .all(|outcome| outcome.job_end.is_in(Way::Committed))
    {
        return Ok(None);
    }
    let input = KeptInput::of(&kept.input);
    let Some(set) = input.set(alloc) else {
        return Ok(None);
    };
    let told = ToldJobs {
        part: input.part,
        jobs: kept.jobs.as_slice(),
        outcomes,
    };
    let words = lost_job_words(alloc, &set, told)?;
    Ok(Some(words))
}

/// Why jobs were not done, or what came of them is not told.
pub fn work_sentence(alloc: Global, fault: WorkerFault) -> Result<Option<String>, AllocError> {
    let words = match fault {
        WorkerFault::Workers => {
            format!(in alloc;
                "0 and more than {MAX_WORKERS} workers are refused: `--workers` takes a number from 1 to {MAX_WORKERS}\n"
            )?
        }
        WorkerFault::TooManyJobs => {
            format!(in alloc;
                "more than {MAX_JOBS} jobs are refused: hand them in as several lists\n"
            )?
        }
        WorkerFault::NoThread { started: 0 } => {
            format!(in alloc;
                "no thread could be started, so no job was done: try again where the machine allows more threads\n"
            )?
        }
        WorkerFault::NoThread { started } => {
            format!(in alloc;
                "only {started} of the workers got a thread: they did all jobs, but what came of them is not told; fewer workers may help\n"
            )?
        }
        WorkerFault::Broken { job } => {
            format!(in alloc;
                "the workers and the engine disagree on job {job}, counted from 0: no input does that, so the program or the machine is at fault; please report it with this input\n"
            )?
        }
        WorkerFault::Memory => return Ok(None),
    };
    Ok(Some(words))
}
