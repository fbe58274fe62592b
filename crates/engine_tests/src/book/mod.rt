//! The history book, as tables of calls and answers; orders and audits of given rows.

mod answer;
mod audit_tests;
pub mod audits;
mod begin_at_tests;
mod book_tests;
mod desk;
mod endings;
mod law_tests;
mod order_tests;
mod own_tests;
mod reason_tests;
mod runs;
mod sets;
