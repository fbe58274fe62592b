//! Accesses at their places: what two of them ask, the facts of that, what it gives, and
//! which of them cover it.

pub mod changers;
pub mod count;
pub mod covers;
pub mod facts;
pub mod mark;
pub mod places;
pub mod questions;
mod tally;
