//! Committing paths: the walk through a program, the way so far, and what a statement adds to it.

mod columns;
mod kinds;
pub mod listing;
mod trail;
pub mod walk;
