//! The least dangerous structure: two vulnerable edges in a row, and a way back.

ghost use Rattle.std.specs.Prelude.{◌≡◌, ℕ, ◌<◌, ◌≤◌, IfSome, IfNone};
ghost use Rattle.order_facts.specs.Square.{Joins};
ghost use Rattle.dep_graph.specs.Triple.{ClosesAt, IsLeastEnd, IsLeastPair, IsLeastTriple};

use order_facts::Square;

/// Three nodes in a row.
#[derive(Clone, Copy)]
pub struct Triple {
    pub x: usize,
    pub y: usize,
    pub z: usize,
}

// The least node that closes a dangerous structure behind `x` and `y`.
fn least_end(vulnerable: &Square, reach: &Square, x: usize, y: usize) -> Option<usize>
    requires first { Joins vulnerable.now x y }
    requires size { reach.now.size ≡ vulnerable.now.size }
    ensures found { IfSome result (λ z. IsLeastEnd vulnerable.now reach.now x y z) }
    ensures none { IfNone result ((z : ℕ) → ¬ ClosesAt vulnerable.now reach.now x y z) }
{
    let mut start = 0;
    while let Some(z) = vulnerable.next(y, start) {
        if reach.get(z, x) {
            return Some(z);
        }
        start = z + 1;
    }
    None
}

// The least two nodes that make a dangerous structure behind `x`.
fn least_pair(vulnerable: &Square, reach: &Square, x: usize) -> Option<Triple>
    requires x { x < vulnerable.now.size }
    requires size { reach.now.size ≡ vulnerable.now.size }
    ensures found { IfSome result (λ t. IsLeastPair vulnerable.now reach.now x t) }
    ensures none { IfNone result
        ((y : ℕ) (z : ℕ) → ¬ ClosesAt vulnerable.now reach.now x y z) }
{
    let mut start = 0;
    while let Some(y) = vulnerable.next(x, start) {
        if let Some(z) = least_end(vulnerable, reach, x, y) {
            return Some(Triple { x, y, z });
        }
        start = y + 1;
    }
    None
}

/// The least three nodes that make a dangerous structure.
pub fn least_triple(vulnerable: &Square, reach: &Square) -> Option<Triple>
    requires { reach.now.size ≡ vulnerable.now.size }
    ensures found { IfSome result (λ t. IsLeastTriple vulnerable.now reach.now t) }
    ensures none { IfNone result
        ((x : ℕ) (y : ℕ) (z : ℕ) → ¬ ClosesAt vulnerable.now reach.now x y z) }
{
    for x in 0..vulnerable.size() {
        if let Some(triple) = least_pair(vulnerable, reach, x) {
            return Some(triple);
        }
    }
    None
}
