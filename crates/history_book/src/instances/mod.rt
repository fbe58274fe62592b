//! What is kept of instances, and what they see.

pub mod active;
pub mod active_set;
pub mod finish;
pub mod replay;
pub mod row;
pub mod snapshot;
pub mod ticket;
