//! A store of versions: what each cell held after each commit from the last vacuum's floor on.
#![tactic(auto)]

mod block;
mod block_scan;
mod block_walk;
mod blocks;
mod chain;
mod chains;
mod clash;
mod found;
mod laws;
mod pending;
mod rare;
mod renew;
mod scan;
mod store;
mod stretch;
mod tail;
mod touches;
mod version;
mod versions;

pub use clash::Clash;
pub use laws::{clashes_are_found, retained_versions_stay};
pub use store::Store;
