//! The shared book beside a book that nobody shares, and what a receipt is good for.

mod alike_tests;
mod answer;
mod bench;
mod fresh_tests;
pub mod kept;
mod shelf;
