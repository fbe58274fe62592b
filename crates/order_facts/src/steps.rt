//! Nodes and facts.

ghost use Rattle.std.specs.Prelude.{◌≡◌, ◌↔◌, IsTrue, Contains};
ghost use Rattle.order_facts.specs.Chain.{floor_of, ceiling_of, IsPlainStep, IsStep, IsChain};
ghost use Rattle.order_facts.specs.Reaches.{is_below};

use std::alloc::Global;
use std::default::MadeWith;

/// What a fact speaks of.
#[derive(Clone, Copy, PartialEq, Eq, Debug)]
pub enum Node {
    Mine(usize),
    MineUnknown(usize),
    Theirs(usize),
    TheirsUnknown(usize),
    Number(i64),
}

/// The fact that `lo` is at most `hi`.
#[derive(Clone, Copy, PartialEq, Eq, Debug)]
pub struct Fact {
    pub lo: Node,
    pub hi: Node,
}

// An unused place among facts.
impl MadeWith<Global> for Fact {
    fn made_with(_alloc: Global) -> Fact {
        let number = Node::Number(0);
        Fact {
            lo: number,
            hi: number,
        }
    }
}

/// The least number that a node can be.
pub fn lowest(node: Node) -> i64
    ensures { result ≡ floor_of node }
{
    match node {
        Node::Number(number) => number,
        _ => i64::MIN,
    }
}

/// The greatest number that a node can be.
pub fn highest(node: Node) -> i64
    ensures { result ≡ ceiling_of node }
{
    match node {
        Node::Number(number) => number,
        _ => i64::MAX,
    }
}

/// Whether `a` is at most `b` whatever they are.
pub fn is_plain_step(a: Node, b: Node) -> bool
    ensures { IsTrue result ↔ IsPlainStep a b }
{
    highest(a) <= lowest(b)
}

/// Whether two nodes are one.
pub fn is_same_node(a: Node, b: Node) -> bool
    ensures { IsTrue result ↔ (a ≡ b) }
{
    a == b
}

/// Whether `a` is `b`, or at most `b` whatever they are.
pub fn is_below(a: Node, b: Node) -> bool
    ensures { result ≡ is_below a b }
{
    is_same_node(a, b) || is_plain_step(a, b)
}

/// Whether the pair is a given fact.
pub fn is_fact(facts: &[Fact], lo: Node, hi: Node) -> bool
    ensures { IsTrue result ↔ Contains facts.now record { lo = lo; hi = hi } }
{
    facts.iter().any(|f| f.lo == lo && f.hi == hi)
}

/// Whether `b` may stand behind `a` in a chain.
pub fn is_step(facts: &[Fact], a: Node, b: Node) -> bool
    ensures { IsTrue result ↔ IsStep facts.now a b }
{
    is_fact(facts, a, b) || is_plain_step(a, b)
}

/// Whether each node is a step from the one before, and there is one.
pub fn is_chain(facts: &[Fact], chain: &[Node]) -> bool
    ensures { IsTrue result ↔ IsChain facts.now chain.now }
{
    if chain.is_empty() {
        return false;
    }
    for i in 1..chain.len() {
        if !is_step(facts, chain[i - 1], chain[i]) {
            return false;
        }
    }
    true
}
