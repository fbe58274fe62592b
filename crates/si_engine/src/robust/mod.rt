//! Runs on robust sets, and the laws between histories and the static graph.

pub mod laws;
pub mod run;
pub mod script;
