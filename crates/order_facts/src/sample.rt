//! A valuation that meets the facts, each node as near to 0 as it can be.

ghost use Rattle.std.specs.Prelude.{◌≡◌, ◌↔◌, ◌≤◌, ℤ, ◌≤ℤ◌, ℕ, ◌<◌, length, true, false, All, IfOk};
ghost use Rattle.std.specs.Prelude.{OnOk, IsTrue};
ghost use Rattle.order_facts.specs.declared.steps.Node.{Node};
ghost use Rattle.order_facts.specs.declared.steps.Node.TheVariants.{Number};
ghost use Rattle.order_facts.specs.Chain.{IsConsistent, IsValuationOfI64, Meets};
ghost use Rattle.order_facts.specs.Reaches.{reaches};
ghost use Rattle.order_facts.specs.Matrix.{IsMatrixOf};
ghost use Rattle.order_facts.specs.Sample.{sample_number, valuation_of, IsSampled, HasChoice};

use crate::square::Square;
use crate::steps::{Fact, Node, highest, is_same_node, lowest};
use crate::ways::{leads_from, leads_to};
use std::alloc::{AllocError, Global};
use std::marker::Model;

/// A parameter or an unknown, and the number that it gets.
#[derive(Clone, Copy, Debug)]
pub struct Choice {
    node: Node,
    number: i64,
}

/// A number for each node.
#[derive(Debug, Drop)]
pub struct Sample {
    choices: Vec<Choice>,
}

impl Model for Sample {
    ghost use Rattle.std.specs.Prelude.{List};
    ghost use Rattle.order_facts.specs.declared.sample.Choice.{Choice};

    ghost Value = { List Choice };

    ghost view = { λ s. s.choices.items };
}

// The greatest number that the facts put below the node.
fn low_bound(facts: &[Fact], matrix: &Square, node: Node) -> i64
    requires { IsMatrixOf matrix.now facts.now facts.now }
    ensures below { reaches facts.now (Number result) node ≡ true }
    ensures greatest { (k : ℤ) → reaches facts.now (Number k) node ≡ true → k ≤ℤ result }
{
    let mut low = lowest(node);
    for from in 0..facts.len() {
        let floor = lowest(facts[from].lo);
        if floor > low && leads_to(facts, matrix, from, node) {
            low = floor;
        }
    }
    low
}

// The least number that the facts put above the node.
fn high_bound(facts: &[Fact], matrix: &Square, node: Node) -> i64
    requires { IsMatrixOf matrix.now facts.now facts.now }
    ensures above { reaches facts.now node (Number result) ≡ true }
    ensures least { (k : ℤ) → reaches facts.now node (Number k) ≡ true → result ≤ℤ k }
{
    let mut high = highest(node);
    for to in 0..facts.len() {
        let ceiling = highest(facts[to].hi);
        if ceiling < high && leads_from(facts, matrix, node, to) {
            high = ceiling;
        }
    }
    high
}

// The number nearest to 0 between the node's bounds.
fn nearest_number(facts: &[Fact], matrix: &Square, node: Node) -> i64
    requires matrix { IsMatrixOf matrix.now facts.now facts.now }
    requires consistent { IsConsistent facts.now }
    ensures { IsSampled facts.now node result }
{
    low_bound(facts, matrix, node).max(high_bound(facts, matrix, node).min(0))
}

// Whether the node needs no choice: it is a number, or has one.
fn has_choice(choices: &[Choice], node: Node) -> bool
    ensures { IsTrue result ↔ HasChoice choices.now node }
{
    matches!(node, Node::Number(_)) || choices.iter().any(|choice| is_same_node(choice.node, node))
}

// Adds the node's choice where it needs one.
fn choose(
    choices: &mut Vec<Choice>,
    facts: &[Fact],
    matrix: &Square,
    node: Node,
) -> Result<(), AllocError>
    requires matrix { IsMatrixOf matrix.now facts.now facts.now }
    requires consistent { IsConsistent facts.now }
    requires sampled { All (λ c. IsSampled facts.now c.node c.number) choices.old.items }
    ensures sampled { OnOk result
        (All (λ c. IsSampled facts.now c.node c.number) choices.new.items) }
    ensures has { OnOk result (HasChoice choices.new.items node) }
    ensures keeps { OnOk result
        ((n : Node) → HasChoice choices.old.items n → HasChoice choices.new.items n) }
{
    if !has_choice(choices, node) {
        let number = nearest_number(facts, matrix, node);
        choices.push(Choice { node, number })?;
    }
    Ok(())
}

impl Sample {
    /// The sample of facts that some valuation meets.
    pub(crate) fn of(alloc: Global, facts: &[Fact], matrix: &Square) -> Result<Sample, AllocError>
        requires matrix { IsMatrixOf matrix.now facts.now facts.now }
        requires consistent { IsConsistent facts.now }
        ensures nearest { IfOk result
            (λ s. (n : Node) → IsSampled facts.now n (sample_number s n)) }
        ensures meets { IfOk result
            (λ s. IsValuationOfI64 (valuation_of s) × Meets (valuation_of s) facts.now) }
    {
        let mut choices = Vec::with_capacity(alloc, facts.len())?;
        for fact in facts {
            choose(&mut choices, facts, matrix, fact.lo)?;
            choose(&mut choices, facts, matrix, fact.hi)?;
        }
        Ok(Sample { choices })
    }

    /// The same sample once more.
    pub fn copy(&self) -> Result<Sample, AllocError>
        ensures { IfOk result (λ s. s ≡ self.now) }
    {
        let choices = Vec::from_slice(*self.choices.allocator(), &self.choices)?;
        Ok(Sample { choices })
    }

    /// The node's number: a number itself, and 0 for a node in no fact.
    pub fn get(&self, node: Node) -> i64
        ensures { result ≡ sample_number self.now node }
    {
        if let Node::Number(number) = node {
            return number;
        }
        for choice in &self.choices {
            if is_same_node(choice.node, node) {
                return choice.number;
            }
        }
        0
    }
}
