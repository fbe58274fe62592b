//! Which commits have to stand before which, by what each of them saw, looked at and changed, and
//! serial orders of them.
#![tactic(auto)]

mod dependency;
mod horizons;
mod kept_region;
mod late;
mod nearby;
mod numbers;
mod order;
mod precedence;
mod reason;
mod reduced;
mod trace;
mod writers;

pub use nearby::nearby_order;
pub use order::OrderFault;
pub use precedence::Precedence;
pub use reason::{OrderReason, reason_between};
pub use reduced::reduced_precedence;
pub use trace::{Trace, are_commits};
