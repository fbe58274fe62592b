//! The lines of replies, of the rows that are left and of the order, and where they go.

pub mod finding;
pub mod pieces;
pub mod printed;
pub mod sink;
