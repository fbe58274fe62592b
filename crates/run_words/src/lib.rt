//! What runs, audits and work have to say in words, for people: what is wrong with the parts of
//! their input, with a line of a script, of a list of records or of a list of jobs, and with a
//! record; which jobs did not commit; and why commits have no serial order.
#![tactic(auto)]

mod begin_numbers;
mod begin_reasons;
mod cycle;
mod event_lines;
mod forms;
mod in_input;
mod job_reasons;
mod job_spots;
mod limits;
mod line_faults;
mod line_reading;
mod lost_jobs;
mod part_faults;
mod record_faults;
mod refusals;
mod refused_lines;
mod replay;
mod shared_words;

pub use cycle::cycle_words;
pub use forms::PartKind;
pub use in_input::Part;
pub use line_faults::line_fault_words;
pub use lost_jobs::{ToldJobs, lost_job_words};
pub use part_faults::{begins_separator, extra_part_words, missing_part_words};
pub use record_faults::record_words;
pub use refusals::Refusals;
pub use refused_lines::refused_words;
