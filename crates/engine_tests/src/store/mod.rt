//! The version store, as tables of calls and answers; its twin, a plain list of commits.

mod calls;
mod piece_tests;
mod store_tests;
mod twin;
