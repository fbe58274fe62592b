//! What an analysis and the checker of its certificates find, in words, for people: faults of a
//! certificate with the entry or the nodes that they are about, what a certificate shows, the
//! refusal of a set with its statements, and its repairs.
#![tactic(auto)]

mod advice;
mod certificate_faults;
mod edges;
mod entry_counts;
mod instances;
mod left;
mod levels;
mod limits;
mod looks;
mod pairs;
mod pointed;
mod quoted;
mod refusal;
mod repair;
mod repair_faults;
mod robust;
mod shared_words;
mod shown;
mod shown_set;
mod ways;

pub use certificate_faults::{certificate_words, json_words};
pub use instances::node_of;
pub use refusal::refusal_words;
pub use repair::repair_words;
pub use repair_faults::repair_fault_words;
pub use robust::robust_words;
pub use shown::branches_text;
