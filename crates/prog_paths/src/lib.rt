//! Committing paths, the facts of a question between two of their accesses, and the laws that each
//! run that ends Ready follows one path, and that facts are met just where accesses meet.
#![tactic(auto)]

mod accesses;
mod laws;
mod limits;
mod path;

pub use accesses::changers::Changers;
pub use accesses::count::{is_too_large, question_count};
pub use accesses::covers::least_cover;
pub use accesses::facts::{
    QuestionFacts, closed_facts, column_or_zero, mine_node, question_facts, second_terms,
    their_node,
};
pub use accesses::mark::{EdgeTables, Gives, Mark, gives_by, mark_by};
pub use accesses::places::{Placed, all_places, program_places};
pub use accesses::questions::{
    Question, asks, asks_read_write, may_cover, may_touch, question_between,
};
pub use laws::{
    law_of_facts, law_of_listing, law_of_own_unknowns, law_of_paths, law_of_single_changes,
};
pub use limits::{MAX_COUNTED, MAX_QUESTIONS};
pub use path::listing::paths;
pub use path::walk::count_statements;
pub use prog_check::{Access, Accesses, Choices, Column, Kind, Path, Term};
