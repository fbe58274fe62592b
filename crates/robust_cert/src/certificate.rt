//! What a certificate is.

use crate::entries::Entries;
use prog_tree::Sequence;

/// Access `a` of node `x` against access `b` of node `y`.
#[derive(Clone, Copy, Debug, PartialEq, Eq)]
pub struct EntryQuestion {
    pub x: u32,
    pub a: u32,
    pub y: u32,
    pub b: u32,
}

/// What shows that a set is robust.
#[derive(Debug, Drop)]
pub struct Certificate {
    pub entries: Entries,
    /// One for each node.
    pub levels: Sequence<u32>,
    /// For each node, how many of its accesses stand in the body of an `each`.
    pub bodies: Sequence<u32>,
}
