//! Certificates that a set of programs is robust: what they are, their JSON text, how that is read,
//! and their checker.
//!
//! A `Certificate` lists the questions between accesses that leave no dependency to fear, each with
//! its reason, gives each node a level, and says how many of its accesses stand in the body of an
//! `each`. `to_json` writes one, `from_json` reads it again, and `verify` accepts it for a set or
//! tells its first fault.
#![tactic(auto)]

mod certificate;
mod chain;
mod checking;
mod entries;
mod fault;
mod laws;
mod limits;
mod robust;
mod text;

pub use certificate::{Certificate, EntryQuestion};
pub use chain::Chain;
pub use checking::bodies::body_size;
pub use checking::checker::verify;
pub use entries::{Entries, Reason, Told};
pub use fault::{CertFault, JsonFault};
pub use laws::law_of_acceptance;
pub use limits::MIN_ENTRIES_OF_THREADS;
pub use robust::RobustSet;
pub use text::pieces::CertificateText;
pub use text::reading::from_json;
pub use text::writing::to_json;
