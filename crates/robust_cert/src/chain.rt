//! Chains that entries hold.
ghost use Rattle.std.specs.Prelude.{◌≡◌, ◌↔◌, All, IfSome, IfNone, IsTrue};
ghost use Rattle.robust_cert.specs.Ranges.{IsOfSmall, NodeFits, ChainFits};

use order_facts::{Node, Nodes};
use std::marker::Model;

/// Nodes of which each is to be at most the next. A parameter or an unknown has a number of `u32`,
/// as in the text, so each chain can be written and read again. A chain of up to two nodes takes no
/// memory.
#[derive(Debug, Drop)]
pub struct Chain {
    nodes: Nodes,
}

impl Model for Chain {
    ghost use Rattle.std.specs.Prelude.{List};
    ghost use Rattle.order_facts.specs.declared.steps.Node.{Node};
    ghost use Rattle.robust_cert.specs.Ranges.{ChainFits};

    ghost Value = { List Node };

    ghost view = { λ c. c.nodes };

    ghost invariant = { λ c. ChainFits c.nodes };
}

// Whether the text can say the number of a node.
fn fits(node: Node) -> bool
    ensures small { IsTrue result ↔ IsOfSmall node }
    ensures fits { IsTrue result → NodeFits node }
{
    match node {
        Node::Mine(number) => u32::try_from(number).is_ok(),
        Node::MineUnknown(number) => u32::try_from(number).is_ok(),
        Node::Theirs(number) => u32::try_from(number).is_ok(),
        Node::TheirsUnknown(number) => u32::try_from(number).is_ok(),
        Node::Number(_number) => true,
    }
}

fn all_fit(nodes: &[Node]) -> bool
    ensures small { IsTrue result ↔ All IsOfSmall nodes.now }
    ensures fits { IsTrue result → ChainFits nodes.now }
{
    nodes.iter().all(|node| fits(*node))
}

impl Chain {
    /// The chain of the nodes, or none where a number is too great for the text.
    pub fn from_vec(nodes: Vec<Node>) -> Option<Self>
        ensures some { IfSome result (λ chain. chain ≡ nodes.items) }
        ensures none { IfNone result (¬ All IsOfSmall nodes.items) }
    {
        Chain::from_nodes(Nodes::from_vec(nodes))
    }

    /// The chain of nodes in a row, with no memory of its own, or none where a number is too great
    /// for the text.
    pub fn from_nodes(nodes: Nodes) -> Option<Self>
        ensures some { IfSome result (λ chain. chain ≡ nodes) }
        ensures none { IfNone result (¬ All IsOfSmall nodes) }
    {
        if all_fit(nodes.as_slice()) {
            Some(Chain { nodes })
        } else {
            None
        }
    }

    pub fn as_slice(&self) -> &[Node]
        ensures nodes { result.now ≡ self.now }
        ensures fits { ChainFits result.now }
    {
        self.nodes.as_slice()
    }
}
