//! What is said to people on the standard error, behind the answer.

pub mod analysis;
pub mod kept;
pub mod kept_input;
pub mod repair;
pub mod runs;
pub mod words;
pub mod work;
