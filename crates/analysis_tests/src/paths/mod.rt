//! The committing paths of sets, and the questions between their accesses.

mod asking_tests;
mod path_tests;
mod question_tests;
mod shown;
