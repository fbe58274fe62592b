//! Jobs on threads over one book: the shared book, the workers, and what they tell compared with
//! the book that they leave.
#![tactic(auto)]

mod assignment;
mod comparing;
mod counts;
mod desk;
mod fault;
mod gate;
mod keys;
mod limits;
mod lock;
mod logged_book;
mod notes;
mod run;
mod shared;
mod tally;
mod threads;
mod told;

pub use fault::{BeginAfterFault, WorkFault, WorkerFault};
pub use gate::{Gate, Moment, NoGate};
pub use job_list::{Job, JobEnd, JobList, JobOutcome, Way, read_jobs};
pub use job_worker::MAX_JOBS;
pub use limits::MAX_WORKERS;
pub use run::{Finished, Worked, do_jobs, run_jobs};
pub use shared::SharedBook;
