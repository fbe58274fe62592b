//! Chains that show that two accesses never meet.
ghost use Rattle.std.specs.Prelude.{◌≡◌, ◌⊎◌, ◌↔◌, [], ◌∷◌, ℕ, Some, slice_get, length, IsTrue};
ghost use Rattle.std.specs.Prelude.{All, IfOk, IfSome, IfNone};
ghost use Rattle.order_facts.specs.declared.steps.Node.{Node};
ghost use Rattle.order_facts.specs.Chain.{HasContradiction};
ghost use Rattle.prog_paths.specs.Facts.{column_facts, second_facts, question_facts};
ghost use Rattle.conflict_pairs.specs.Verdicts.{IsFall, FallsShortest};
ghost use Rattle.prog_paths.specs.Shown.{Falls};
ghost use Rattle.conflict_pairs.specs.Search.{FallsBetween, FallsAtOnce, FoundWithin};

use crate::chain::Chain;
use order_facts::{Closed, Node};
use prog_check::{Access, Column};
use prog_paths::{column_or_zero, mine_node, their_node};
use std::alloc::AllocError;

// Whether both are numbers, the second smaller.
fn is_fall(from: Node, to: Node) -> bool
    ensures { IsTrue result ↔ IsFall from to }
{
    match (from, to) {
        (Node::Number(greater), Node::Number(smaller)) => smaller < greater,
        _ => false,
    }
}

fn fall(from: Node, to: Node) -> Option<Chain>
    ensures some { IfSome result (λ chain. IsFall from to × (chain ≡ from ∷ to ∷ [])) }
    ensures none { IfNone result (¬ IsFall from to) }
{
    if is_fall(from, to) {
        Some(Chain::of_two(from, to))
    } else {
        None
    }
}

// The chain of the first fact of a column that is of two numbers that fall.
fn column_fall(mine: Column, theirs: Column) -> Option<Chain>
    ensures some { IfSome result (λ chain. FallsAtOnce (column_facts mine theirs) chain) }
    ensures none { IfNone result (All (λ f. ¬ IsFall f.lo f.hi) (column_facts mine theirs)) }
{
    match fall(mine_node(mine.low), their_node(theirs.low)) {
        Some(chain) => Some(chain),
        None => fall(their_node(theirs.low), mine_node(mine.high)),
    }
}

// The chain of the first fact of two second columns that is of two numbers that fall.
fn second_fall(mine: Option<Column>, theirs: Option<Column>) -> Option<Chain>
    ensures some { IfSome result (λ chain. FallsAtOnce (second_facts mine theirs) chain) }
    ensures none { IfNone result (All (λ f. ¬ IsFall f.lo f.hi) (second_facts mine theirs)) }
{
    match (mine, theirs) {
        (None, None) => None,
        (None, Some(theirs)) => column_fall(column_or_zero(None), theirs),
        (Some(mine), theirs) => column_fall(mine, column_or_zero(theirs)),
    }
}

/// The chain of the first fact of a question that is of two numbers that fall. It takes no memory.
pub fn number_fall(mine: &Access, theirs: &Access) -> Option<Chain>
    ensures some { IfSome result
        (λ chain. FallsShortest (question_facts mine.now theirs.now) chain) }
    ensures none { IfNone result
        (All (λ f. ¬ IsFall f.lo f.hi) (question_facts mine.now theirs.now)) }
{
    match column_fall(mine.first, theirs.first) {
        Some(chain) => Some(chain),
        None => second_fall(mine.second, theirs.second),
    }
}

// A shortest chain from a node to one, where they are numbers that fall.
fn falling_chain(closed: &Closed, from: Node, to: Node) -> Result<Option<Chain>, AllocError>
    ensures some { IfOk result (λ found. IfSome found (λ chain. Falls closed.now chain)) }
    ensures all { IfOk result (λ found.
        (h : FallsBetween closed.now from to) → FoundWithin found (length h.chain)) }
{
    if !is_fall(from, to) {
        return Ok(None);
    }
    match closed.chain(from, to)? {
        Some(nodes) => Ok(Some(Chain::from_vec(nodes))),
        None => Ok(None),
    }
}

// The shorter of two chains, the first where they are as long.
fn shorter(one: Option<Chain>, other: Option<Chain>) -> Option<Chain>
    ensures either { (result ≡ one) ⊎ (result ≡ other) }
    ensures one { (count : ℕ) → FoundWithin one count → FoundWithin result count }
    ensures other { (count : ℕ) → FoundWithin other count → FoundWithin result count }
{
    match (one, other) {
        (Some(one), Some(other)) => {
            if other.as_slice().len() < one.as_slice().len() {
                Some(other)
            } else {
                Some(one)
            }
        }
        (None, other) => other,
        (one, None) => one,
    }
}

// A shortest chain from a node to one of some nodes, where they are numbers that fall.
fn falling_from(closed: &Closed, from: Node, ends: &[Node]) -> Result<Option<Chain>, AllocError>
    ensures some { IfOk result (λ found. IfSome found (λ chain. Falls closed.now chain)) }
    ensures all { IfOk result (λ found. (k : ℕ) (to : Node) → slice_get ends.now k ≡ Some to
        → (h : FallsBetween closed.now from to) → FoundWithin found (length h.chain)) }
{
    let mut best = None;
    for to in ends {
        best = shorter(best, falling_chain(closed, from, *to)?);
    }
    Ok(best)
}

// A shortest chain from one of some nodes to one of others, where they are numbers that fall.
fn falling_between(
    closed: &Closed,
    starts: &[Node],
    ends: &[Node],
) -> Result<Option<Chain>, AllocError>
    ensures some { IfOk result (λ found. IfSome found (λ chain. Falls closed.now chain)) }
    ensures all { IfOk result (λ found. (i k : ℕ) (from to : Node)
        → slice_get starts.now i ≡ Some from → slice_get ends.now k ≡ Some to
        → (h : FallsBetween closed.now from to) → FoundWithin found (length h.chain)) }
{
    let mut best = None;
    for from in starts {
        best = shorter(best, falling_from(closed, *from, ends)?);
    }
    Ok(best)
}

// A shortest chain by the facts of a question from a number to a smaller one.
fn shortest_fall(
    closed: &Closed,
    mine: &Access,
    theirs: &Access,
) -> Result<Option<Chain>, AllocError>
    requires { closed.now ≡ question_facts mine.now theirs.now }
    ensures some { IfOk result (λ found. IfSome found (λ chain. Falls closed.now chain)) }
    ensures all { IfOk result (λ found. (h : HasContradiction closed.now)
        → FoundWithin found (length h.chain)) }
{
    let my_second = column_or_zero(mine.second);
    let second = their_node(column_or_zero(theirs.second).low);
    let first = their_node(theirs.first.low);
    let starts = [
        mine_node(mine.first.low),
        first,
        mine_node(my_second.low),
        second,
    ];
    let ends = [
        first,
        mine_node(mine.first.high),
        second,
        mine_node(my_second.high),
    ];
    falling_between(closed, &starts, &ends)
}

/// A shortest chain that shows that no assignment meets the facts of a question.
pub fn contradiction(closed: &Closed, mine: &Access, theirs: &Access) -> Result<Chain, AllocError>
    requires facts { closed.now ≡ question_facts mine.now theirs.now }
    requires contradiction { HasContradiction closed.now }
    ensures { IfOk result (λ chain. FallsShortest closed.now chain) }
{
    match shortest_fall(closed, mine, theirs)? {
        Some(chain) => Ok(chain),
        None => unreachable!(),
    }
}
