//! Jobs, run by workers: with gates that hold them, and without.

mod gate_tests;
mod list_tests;
mod lists;
mod meeting;
mod memory_tests;
mod outcomes;
mod overtaking;
mod patience;
mod reader_tests;
mod transfer_tests;
