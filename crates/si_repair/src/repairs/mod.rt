//! Repairs of a set by a plan: both programs of a pair keep a row, or one keeps the rows it read.

mod behind;
mod bisecting;
mod checked;
mod exposed;
mod fault;
mod key;
mod marks;
pub mod materialise;
mod names;
mod obstacles;
mod promotion;
mod ranges;

pub use exposed::{exposed_questions, first_exposed};
pub use fault::RepairFault;
pub use obstacles::{Obstacle, has_unknown_key, hindered_question};
pub use promotion::promote;
pub use ranges::is_range_at;
