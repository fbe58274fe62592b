//! Worked examples of the calls of the store, the book and the engine, told by hand.
#![tactic(auto)]

#[cfg(test)]
mod book;
#[cfg(test)]
mod engine;
#[cfg(test)]
mod store;
