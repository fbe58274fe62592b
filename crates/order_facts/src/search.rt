//! The search for a chain with the fewest nodes: backward from its end, level by level.

ghost use Rattle.std.specs.Prelude.{◌≡◌, ◌↔◌, ℕ, List, ◌<◌, ◌≤◌, ◌+◌, ◌++◌, ◌∷◌, [], true, length};
ghost use Rattle.std.specs.Prelude.{take, IfOk, OnOk, IfSome, IfNone, IsTrue};
ghost use Rattle.order_facts.specs.declared.steps.Node.{Node};
ghost use Rattle.order_facts.specs.declared.steps.Fact.{Fact};
ghost use Rattle.order_facts.specs.Chain.{IsStep, IsChain, RunsBetween};
ghost use Rattle.order_facts.specs.Reaches.{reaches};
ghost use Rattle.order_facts.specs.Search.{reached_at, HasReached, IsDescending, IsTrail, Adds};
ghost use Rattle.order_facts.specs.Search.{Spreads};

use crate::steps::{Fact, Node, is_same_node, is_step};
use std::alloc::{AllocError, Global};

// A node from which the chain's end is reached in so many steps, the first to what was reached at
// the place `next`.
#[derive(Clone, Copy)]
struct Reached {
    node: Node,
    steps: usize,
    next: usize,
}

// The place of the first reached node that may stand behind `node` in a chain.
fn step_from(facts: &[Fact], reached: &[Reached], node: Node) -> Option<usize>
    ensures found { IfSome result
        (λ k. (k < length reached.now) × IsStep facts.now node (reached_at reached.now k).node) }
    ensures none { IfNone result
        ((k : ℕ) → k < length reached.now
        → ¬ IsStep facts.now node (reached_at reached.now k).node) }
{
    reached.iter().position(|r| is_step(facts, node, r.node))
}

// Whether the node was reached.
fn has_reached(reached: &[Reached], node: Node) -> bool
    ensures { IsTrue result ↔ HasReached reached.now node }
{
    reached.iter().any(|r| is_same_node(r.node, node))
}

// Adds the node where it is new and a step from one of the first `known`.
fn reach(
    facts: &[Fact],
    reached: &mut Vec<Reached>,
    known: usize,
    node: Node,
    steps: usize,
) -> Result<(), AllocError>
    requires { known ≤ length reached.old.items }
    ensures { OnOk result (Adds facts.now reached.old.items reached.new.items known node steps) }
{
    if !has_reached(reached, node) {
        if let Some(next) = step_from(facts, &reached[..known], node) {
            reached.push(Reached { node, steps, next })?;
        }
    }
    Ok(())
}

// Adds the ends of facts that are new and a step from what was reached.
fn spread(facts: &[Fact], reached: &mut Vec<Reached>, steps: usize) -> Result<(), AllocError>
    ensures { OnOk result (Spreads facts.now reached.old.items reached.new.items steps) }
{
    let known = reached.len();
    for fact in facts {
        reach(facts, reached, known, fact.lo, steps)?;
        reach(facts, reached, known, fact.hi, steps)?;
    }
    Ok(())
}

// The chain from `x` by what was reached at `first` to the end.
fn walk(alloc: Global, reached: &[Reached], x: Node, first: usize) -> Result<Vec<Node>, AllocError>
    requires first { first < length reached.now }
    requires descending { IsDescending reached.now }
    ensures length { IfOk result
        (λ chain. length chain.items ≤ (reached_at reached.now first).steps + 2) }
    ensures chain { IfOk result (λ chain. (facts : List Fact) (y : Node)
        → IsTrail facts y reached.now
        → IsStep facts x (reached_at reached.now first).node
        → IsChain facts chain.items × RunsBetween x y chain.items) }
{
    let mut chain = Vec::new(alloc);
    chain.push(x)?;
    let mut at = reached[first];
    chain.push(at.node)?;
    while at.steps > 0 {
        at = reached[at.next];
        chain.push(at.node)?;
    }
    Ok(chain)
}

/// A chain from `x` to `y` with the fewest nodes.
pub fn shortest_chain(
    alloc: Global,
    facts: &[Fact],
    x: Node,
    y: Node,
) -> Result<Vec<Node>, AllocError>
    requires { reaches facts.now x y ≡ true }
    ensures chain { IfOk result (λ chain. IsChain facts.now chain.items) }
    ensures runs { IfOk result (λ chain. RunsBetween x y chain.items) }
    ensures fewest { IfOk result (λ chain. (other : List Node) → IsChain facts.now other
        → RunsBetween x y other → length chain.items ≤ length other) }
{
    if is_same_node(x, y) {
        return Vec::from_slice(alloc, &[x]);
    }
    let mut reached = Vec::new(alloc);
    reached.push(Reached {
        node: y,
        steps: 0,
        next: 0,
    })?;
    let mut steps = 0;
    loop {
        if let Some(first) = step_from(facts, &reached, x) {
            return walk(alloc, &reached, x, first);
        }
        steps += 1;
        spread(facts, &mut reached, steps)?;
    }
}
