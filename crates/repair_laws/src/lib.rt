//! What a repair of a set of programs is, what it puts in front of programs, and the laws of
//! repairs: they keep the meaning of each program, and leave no dangerous structure.
#![tactic(auto)]

mod front;
mod keeps;
mod laws;
mod plan;

pub use front::materialised_draft;
pub use laws::{
    law_of_as_many_questions, law_of_edges_kept, law_of_materialising, law_of_meaning,
    law_of_one_plan, law_of_paths_with_keeps, law_of_plan_steps, law_of_plans, law_of_promoting,
    law_of_sizes,
};
pub use plan::{NewTable, Pair};
