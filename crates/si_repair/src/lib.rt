//! Whether a set of programs stays serializable under snapshot isolation: the certificate that it
//! does, or the least dangerous structure; and repairs of a set that does not.
#![tactic(auto)]

mod analysis;
mod certificate;
mod entries;
mod fault;
mod finding;
mod plans;
mod reasons;
mod repairs;

pub use analysis::{certify, certify_par};
pub use fault::AnalyseFault;
pub use finding::Finding;
pub use plans::Plan;
pub use plans::planning::plan;
pub use repair_laws::Pair;
pub use repairs::materialise::materialise;
pub use repairs::{
    Obstacle, RepairFault, exposed_questions, first_exposed, has_unknown_key, hindered_question,
    is_range_at, promote,
};
