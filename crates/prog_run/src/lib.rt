//! Runs one instance of a program, step by step. It asks for what it has to know of its snapshot.
#![tactic(auto)]

mod block;
mod cursor;
mod fault;
mod next;
mod notes;
mod region;
mod run;
mod statement;
mod task;

pub use fault::{AnswerFault, RunFault};
pub use next::Next;
pub use prog_tree::{Cause, Deed, End, Look};
pub use run::Run;
