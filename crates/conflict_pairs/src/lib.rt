//! What the facts say of each question between two accesses: that the two never meet, that a pair
//! of single cells covers it, or that it is exposed; and the table of all questions of a list of
//! paths with their verdicts.
#![tactic(auto)]

mod alike;
mod apart;
mod chain;
mod class_pairs;
mod classed;
mod classes;
mod condition;
mod cover;
mod fault;
mod hashes;
mod interning;
mod judge;
mod laws;
mod limits;
mod listing;
mod pairing;
mod parallel;
mod sharing;
mod table;
mod verdicts;

pub use chain::Chain;
pub use classed::{ClassTable, class_table, class_table_par};
pub use condition::{changes_single_cells, is_question};
pub use fault::PairFault;
pub use interning::{Interned, Interner, intern_all};
pub use judge::{is_exposed_question, verdict};
pub use laws::law_of_verdicts;
pub use limits::EQUAL_PARTS;
pub use listing::{Listed, pairs};
pub use parallel::pairs_par;
pub use prog_paths::Question;
pub use sharing::access_at;
pub use table::{PairTable, TablePart};
pub use verdicts::Verdict;
