//! A book of snapshot histories: what was begun, what committed, and how each instance ended.
#![tactic(auto)]

mod audit;
mod book;
mod fault;
mod instances;
mod laws;
mod limits;
mod orders;

pub use audit::{AuditFault, RowFault};
pub use book::Book;
pub use fault::{
    BeginFault, CommitFault, Difference, EndFault, NoSuchTicket, OwnCommitFault, ScanFault, Unused,
};
pub use instances::row::{Ending, HistoryRow, same_numbers};
pub use instances::ticket::{Receipt, Ticket};
pub use laws::{
    clashes_name_a_commit, commits_are_what_the_instances_write, dependencies_are_of_instances,
    forward_orders_run_the_same, lawful_rows_are_right, least_orders_fit,
    least_orders_of_reduced_relations, orders_are_of_relations_without_a_cycle,
    reasons_are_of_dependencies,
};
pub use limits::MAX_ENDINGS;
pub use orders::fits::AnyFitFault;
pub use serial_orders::{OrderFault, OrderReason};
pub use version_store::Clash;
