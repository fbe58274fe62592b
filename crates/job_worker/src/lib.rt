//! One worker: the jobs that it draws, one after another, over what it asks of a book.
#![tactic(auto)]

mod desk;
mod limits;
mod stop;
mod worker;

pub use desk::{Answer, Desk};
pub use limits::MAX_JOBS;
pub use worker::{Done, work};
