//! Hashes of what is remembered. Nothing is promised of them: a bad one costs time and memory
//! alone.

use order_facts::Node;
use prog_check::{Access, Column, Kind};
use prog_paths::mine_node;

// A prime, so that few pairs of numbers are mixed to the same one.
const FACTOR: usize = 1_000_003;

/// A hash of what was seen and one number more.
pub fn mix(seen: usize, number: usize) -> usize {
    seen.wrapping_mul(FACTOR).wrapping_add(number)
}

pub fn node_hash(node: Node) -> usize {
    match node {
        Node::Mine(index) => mix(1, index),
        Node::MineUnknown(index) => mix(2, index),
        Node::Theirs(index) => mix(3, index),
        Node::TheirsUnknown(index) => mix(4, index),
        Node::Number(number) => number.unsigned_abs() as usize,
    }
}

fn kind_hash(kind: Kind) -> usize {
    match kind {
        Kind::Reads => 0,
        Kind::Sees => 1,
        Kind::Lacks => 2,
        Kind::Writes => 3,
        Kind::Adds => 4,
        Kind::Keeps => 5,
    }
}

fn column_hash(column: Column) -> usize {
    mix(
        node_hash(mine_node(column.low)),
        node_hash(mine_node(column.high)),
    )
}

/// The hash of an access, whatever its place.
pub fn access_hash(access: &Access) -> usize {
    let second = match access.second {
        Some(column) => column_hash(column),
        None => 0,
    };
    let cells = mix(column_hash(access.first), second);
    mix(mix(access.table, kind_hash(access.kind)), cells)
}
