//! Which node the facts put below which, looked up in the closed matrix.

ghost use Rattle.std.specs.Prelude.{◌≡◌, ◌<◌, ◌↔◌, length, IsTrue, true, false};
ghost use Rattle.order_facts.specs.Chain.{IsConsistent, HasContradiction};
ghost use Rattle.order_facts.specs.Reaches.{reaches, fact_at, HasOrderlyRow};
ghost use Rattle.order_facts.specs.Matrix.{IsMatrixOf};

use crate::square::Square;
use crate::steps::{Fact, Node, highest, is_below, lowest};

/// Whether the upper node of the fact at `from` is below `y`.
pub fn leads_to(facts: &[Fact], matrix: &Square, from: usize, y: Node) -> bool
    requires matrix { IsMatrixOf matrix.now facts.now facts.now }
    requires from { from < length facts.now }
    ensures { result ≡ reaches facts.now (fact_at facts.now from).hi y }
{
    if is_below(facts[from].hi, y) {
        return true;
    }
    for to in 0..facts.len() {
        if matrix.get(from, to) && is_below(facts[to].hi, y) {
            return true;
        }
    }
    false
}

/// Whether `x` is below the lower node of the fact at `to`.
pub fn leads_from(facts: &[Fact], matrix: &Square, x: Node, to: usize) -> bool
    requires matrix { IsMatrixOf matrix.now facts.now facts.now }
    requires to { to < length facts.now }
    ensures { result ≡ reaches facts.now x (fact_at facts.now to).lo }
{
    if is_below(x, facts[to].lo) {
        return true;
    }
    for from in 0..facts.len() {
        if matrix.get(from, to) && is_below(x, facts[from].lo) {
            return true;
        }
    }
    false
}

/// Whether `x` is below `y`.
pub fn reaches(facts: &[Fact], matrix: &Square, x: Node, y: Node) -> bool
    requires { IsMatrixOf matrix.now facts.now facts.now }
    ensures { result ≡ reaches facts.now x y }
{
    if is_below(x, y) {
        return true;
    }
    for from in 0..facts.len() {
        if is_below(x, facts[from].lo) && leads_to(facts, matrix, from, y) {
            return true;
        }
    }
    false
}

// Whether the lower node of the fact at `from` is put below no node that is surely less.
fn row_is_orderly(facts: &[Fact], matrix: &Square, from: usize) -> bool
    requires matrix { IsMatrixOf matrix.now facts.now facts.now }
    requires from { from < length facts.now }
    ensures orderly { IsTrue result → HasOrderlyRow facts.now from }
    ensures contradiction { result ≡ false → HasContradiction facts.now }
{
    let floor = lowest(facts[from].lo);
    for to in 0..facts.len() {
        if highest(facts[to].hi) < floor && (to == from || matrix.get(from, to)) {
            return false;
        }
    }
    true
}

/// Whether the facts put no node below one that is surely less: whether some valuation meets them.
pub fn is_orderly(facts: &[Fact], matrix: &Square) -> bool
    requires { IsMatrixOf matrix.now facts.now facts.now }
    ensures consistent { IsTrue result ↔ IsConsistent facts.now }
    ensures contradiction { result ≡ false → HasContradiction facts.now }
{
    for from in 0..facts.len() {
        if !row_is_orderly(facts, matrix, from) {
            return false;
        }
    }
    true
}
