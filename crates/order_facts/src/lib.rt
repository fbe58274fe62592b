//! Exact reasoning about order among i64 values: what facts `lo <= hi` between parameters, unknowns
//! and numbers force.
//!
//! `Facts` collects the facts, and `close` finds once what they entail. A `Closed` then answers
//! whether some valuation of i64 meets the facts, whether they put one node at most another, by
//! which chain, and with which sample. Who has the facts in a slice closes it by `Closed::of` and
//! asks `is_chain` of a chain, as the program does. Where one node is said to be below another, it
//! is at most it.
#![tactic(auto)]

mod closed;
mod given;
mod matrix;
mod node_set;
mod nodes;
mod sample;
mod search;
mod square;
mod steps;
mod ways;

pub use closed::Closed;
pub use given::{Facts, check_chain};
pub use node_set::NodeSet;
pub use nodes::Nodes;
pub use sample::Sample;
pub use square::Square;
pub use steps::{Fact, Node, is_chain, is_plain_step, is_same_node};
