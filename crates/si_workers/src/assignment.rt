//! What workers are given beside their jobs.

use prog_check::ProgramSet;
use prog_tree::Rows;

/// So many workers do jobs for a set of programs, over opening rows.
#[derive(Clone, Copy)]
pub struct Assignment<'s> {
    pub workers: usize,
    pub set: &'s ProgramSet,
    pub opening: &'s Rows,
}
