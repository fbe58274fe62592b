//! The checker.

pub mod bodies;
pub mod by_facts;
pub mod checker;
pub mod entry_check;
pub mod flaw;
pub mod left;
pub mod levels;
pub mod numbers;
pub mod telling;
