//! The graph of what instances of a set's committing paths can depend on: which node reaches which,
//! and the least dangerous structure.
#![tactic(auto)]

mod closure;
mod danger;
mod distances;
mod edges;
mod graph;
mod least_way;
mod triple;

pub use danger::{Danger, Exposure};
pub use graph::Graph;
