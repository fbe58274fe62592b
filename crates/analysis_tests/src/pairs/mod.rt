//! Verdicts, tables of questions and their graphs.

mod graph_tests;
mod interning_tests;
mod judge_tests;
mod said;
mod sets;
mod verdict_tests;
