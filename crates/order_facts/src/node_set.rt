//! Sets of nodes, with a bit for each node.
ghost use Rattle.std.specs.Prelude.{◌≡◌, ◌<◌, length, IfOk};
ghost use Rattle.order_facts.specs.Sets.{InsertsNode, IsEmptySet};

use std::alloc::{AllocError, Global};
use std::marker::Model;

/// Which of so many nodes are in a set.
#[derive(Debug, Drop)]
pub struct NodeSet {
    size: usize,
    pub(crate) words: Vec<u64>,
}

impl Model for NodeSet {
    ghost use Rattle.std.specs.Prelude.{ℕ, ◌*◌, ◌≤◌, List, Bool, length};
    ghost use Rattle.order_facts.specs.Words.{set_of};

    ghost Value = { List Bool };

    ghost view = { λ s. set_of s.size s.words.items };

    ghost invariant = { λ s. s.size ≤ length s.words.items * 64 };
}

impl NodeSet {
    /// A set of so many nodes that has none of them.
    pub fn new(alloc: Global, size: usize) -> Result<NodeSet, AllocError>
        ensures { IfOk result (λ set. IsEmptySet set size) }
    {
        let words = vec![in alloc; 0; size.div_ceil(64)]?;
        Ok(NodeSet { size, words })
    }

    /// How many nodes there are, in it or not.
    pub fn size(&self) -> usize
        ensures { result ≡ length self.now }
    {
        self.size
    }

    /// Puts a node into it.
    pub fn insert(&mut self, node: usize)
        requires { node < length self.old }
        ensures { InsertsNode self.old self.new node }
    {
        self.words[node / 64] |= 1 << (node % 64);
    }

    /// Takes all nodes out of it.
    pub fn clear(&mut self)
        ensures { IsEmptySet self.new (length self.old) }
    {
        self.words.fill(0);
    }
}
