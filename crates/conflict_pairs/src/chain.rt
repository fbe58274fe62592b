//! Chains that answers hold.
ghost use Rattle.std.specs.Prelude.{◌≡◌, ◌↔◌, [], ◌∷◌, IsTrue};
ghost use Rattle.order_facts.specs.Chain.{IsTight};

use order_facts::{Node, Nodes};
use std::marker::Model;

/// Nodes of which each is at most the next, and none could be left out. A chain of up to two nodes
/// takes no memory.
#[derive(Debug, Drop)]
pub struct Chain {
    nodes: Nodes,
}

impl Model for Chain {
    ghost use Rattle.std.specs.Prelude.{List};
    ghost use Rattle.order_facts.specs.declared.steps.Node.{Node};
    ghost use Rattle.order_facts.specs.Chain.{IsTight};

    ghost Value = { List Node };

    ghost view = { λ c. c.nodes };

    ghost invariant = { λ c. IsTight c.nodes };
}

impl Chain {
    /// The chain of two nodes.
    pub(crate) fn of_two(first: Node, last: Node) -> Self
        ensures { result ≡ first ∷ last ∷ [] }
    {
        Chain {
            nodes: Nodes::of_two(first, last),
        }
    }

    pub(crate) fn from_vec(nodes: Vec<Node>) -> Self
        requires { IsTight nodes.items }
        ensures { result ≡ nodes.items }
    {
        Chain {
            nodes: Nodes::from_vec(nodes),
        }
    }

    pub fn as_slice(&self) -> &[Node]
        ensures nodes { result.now ≡ self.now }
        ensures tight { IsTight result.now }
    {
        self.nodes.as_slice()
    }

    /// Whether these are its nodes.
    pub fn is_same(&self, nodes: &[Node]) -> bool
        ensures { IsTrue result ↔ (self.now ≡ nodes.now) }
    {
        self.as_slice() == nodes
    }
}
