//! Nodes in a row.

ghost use Rattle.std.specs.Prelude.{◌≡◌, [], ◌∷◌, ◌≤◌, length, IfOk, IsOk};

use crate::steps::Node;
use std::alloc::{AllocError, Global};
use std::marker::Model;

// One node, two of them, or a list.
#[derive(Debug, Drop)]
enum NodeList {
    One([Node; 1]),
    Two([Node; 2]),
    Listed(Vec<Node>),
}

/// Nodes in a row. Up to two of them take no memory.
#[derive(Debug, Drop)]
pub struct Nodes {
    held: NodeList,
}

impl Model for Nodes {
    ghost use Rattle.std.specs.Prelude.{List};
    ghost use Rattle.order_facts.specs.declared.steps.Node.{Node};
    ghost use Rattle.order_facts.specs.Nodes.{nodes_held};

    ghost Value = { List Node };

    ghost view = { λ n. nodes_held n.held };
}

impl Nodes {
    pub fn of_one(only: Node) -> Self
        ensures { result ≡ only ∷ [] }
    {
        Nodes {
            held: NodeList::One([only]),
        }
    }

    pub fn of_two(first: Node, last: Node) -> Self
        ensures { result ≡ first ∷ last ∷ [] }
    {
        Nodes {
            held: NodeList::Two([first, last]),
        }
    }

    /// The nodes of a list, which gives its memory back where they are one or two.
    pub fn from_vec(nodes: Vec<Node>) -> Self
        ensures { result ≡ nodes.items }
    {
        match nodes.as_slice() {
            [only] => return Nodes::of_one(*only),
            [first, last] => return Nodes::of_two(*first, *last),
            _ => {}
        }
        Nodes {
            held: NodeList::Listed(nodes),
        }
    }

    /// A copy of some nodes.
    pub fn from_slice(alloc: Global, nodes: &[Node]) -> Result<Self, AllocError>
        ensures copy { IfOk result (λ copy. copy ≡ nodes.now) }
        ensures few { length nodes.now ≤ 2 → IsOk result }
    {
        match nodes {
            [] => Ok(Nodes::from_vec(Vec::new(alloc))),
            [only] => Ok(Nodes::of_one(*only)),
            [first, last] => Ok(Nodes::of_two(*first, *last)),
            _ => Ok(Nodes {
                held: NodeList::Listed(Vec::from_slice(alloc, nodes)?),
            }),
        }
    }

    pub fn as_slice(&self) -> &[Node]
        ensures { result.now ≡ self.now }
    {
        match &self.held {
            NodeList::One(nodes) => nodes.as_slice(),
            NodeList::Two(nodes) => nodes.as_slice(),
            NodeList::Listed(nodes) => nodes.as_slice(),
        }
    }
}
