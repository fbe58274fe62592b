//! Jobs: the lines that say them, and what came of each.
#![tactic(auto)]

mod job;
mod job_line;
mod reading;

pub use job::{Job, JobEnd, JobOutcome, Way};
pub use reading::{JobList, read_jobs};
