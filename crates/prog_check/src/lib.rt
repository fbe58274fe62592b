//! Checks a draft of tables and programs, and keeps a checked set with its names' numbers.
#![tactic(auto)]

mod body;
mod counts;
mod fault;
mod heads;
mod laws;
mod limits;
mod literals;
mod names;
mod path;
mod set;
mod tables;
mod uses;

pub use fault::{CheckFault, Place};
pub use laws::soundness;
pub use limits::{
    MAX_ACCESSES, MAX_PARAMETERS, MAX_PATHS, MAX_PROGRAMS, MAX_STATEMENTS, MAX_TABLES,
};
pub use path::{Access, Accesses, Choices, Column, Kind, Path, Term};
pub use set::{ProgramSet, check};
pub use uses::table_use;
