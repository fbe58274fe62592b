//! The states that a store was in, in order, as threads know them: the list exists in proofs
//! alone. What threads share is a word, its length, and a `Front` is a beginning that was seen.
#![tactic(auto)]

mod front;
mod law;

pub use front::{Front, Head, Naming, Opened, Tells};
