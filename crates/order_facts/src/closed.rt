//! Facts, and what they entail.

ghost use Rattle.std.specs.Prelude.{◌≡◌, ◌↔◌, ◌≤◌, List, false, length, IfOk, IfSome, IfNone};
ghost use Rattle.std.specs.Prelude.{IsSome, IsNone, IsTrue};
ghost use Rattle.order_facts.specs.declared.steps.Node.{Node};
ghost use Rattle.order_facts.specs.Chain.{Entails, ForcesEqual, IsConsistent, IsValuationOfI64};
ghost use Rattle.order_facts.specs.Chain.{Meets, HasContradiction, IsChain, IsTight, IsStep};
ghost use Rattle.order_facts.specs.Chain.{RunsBetween};
ghost use Rattle.order_facts.specs.Sample.{sample_number, valuation_of, IsSampled};

use crate::matrix::matrix_of;
use crate::sample::Sample;
use crate::search::shortest_chain;
use crate::square::Square;
use crate::steps::{Fact, Node, is_step};
use crate::ways::{is_orderly, reaches};
use smallvec::SmallVec;
use std::alloc::{AllocError, Global};
use std::marker::Model;

// How many facts are kept without an allocation: as many as a question has.
const FEW_FACTS: usize = 4;

/// Facts, and which node they put below which.
#[derive(Debug, Drop)]
pub struct Closed {
    facts: SmallVec<Fact, FEW_FACTS>,
    matrix: Square,
    consistent: bool,
}

impl Model for Closed {
    ghost use Rattle.std.specs.Prelude.{◌≡◌, ◌↔◌, List, IsTrue, false};
    ghost use Rattle.order_facts.specs.declared.steps.Fact.{Fact};
    ghost use Rattle.order_facts.specs.Chain.{IsConsistent, HasContradiction};
    ghost use Rattle.order_facts.specs.Matrix.{IsMatrixOf};

    ghost Value = { List Fact };

    ghost view = { λ c. c.facts.items };

    ghost invariant = { λ c. record {
      matrix : IsMatrixOf c.matrix c.facts.items c.facts.items;
      consistent : IsTrue c.consistent ↔ IsConsistent c.facts.items;
      contradiction : c.consistent ≡ false → HasContradiction c.facts.items;
    } };
}

impl Closed {
    /// What the facts entail, with a copy of them.
    pub fn of(alloc: Global, facts: &[Fact]) -> Result<Closed, AllocError>
        ensures { IfOk result (λ closed. closed ≡ facts.now) }
    {
        let facts = SmallVec::from_slice(alloc, facts)?;
        let matrix = matrix_of(alloc, facts.as_slice())?;
        let consistent = is_orderly(facts.as_slice(), &matrix);
        Ok(Closed {
            facts,
            matrix,
            consistent,
        })
    }

    /// Whether some valuation of i64 meets all facts.
    pub fn consistent(&self) -> bool
        ensures consistent { IsTrue result ↔ IsConsistent self.now }
        ensures contradiction { result ≡ false → HasContradiction self.now }
    {
        self.consistent
    }

    /// Whether every valuation of i64 that meets all facts gives `x` at most what it gives `y`.
    pub fn entails(&self, x: Node, y: Node) -> bool
        ensures { IsTrue result ↔ Entails self.now x y }
    {
        !self.consistent || reaches(self.facts.as_slice(), &self.matrix, x, y)
    }

    /// Whether every valuation of i64 that meets all facts gives both the same.
    pub fn forces_equal(&self, x: Node, y: Node) -> bool
        ensures { IsTrue result ↔ ForcesEqual self.now x y }
    {
        self.entails(x, y) && self.entails(y, x)
    }

    /// Whether `y` may stand behind `x` in a chain.
    pub fn has_step(&self, x: Node, y: Node) -> bool
        ensures { IsTrue result ↔ IsStep self.now x y }
    {
        is_step(self.facts.as_slice(), x, y)
    }

    /// A chain from `x` to `y` with the fewest nodes, where there is one.
    pub fn chain(&self, x: Node, y: Node) -> Result<Option<Vec<Node>>, AllocError>
        ensures chain { IfOk result (λ found. IfSome found
            (λ chain. IsChain self.now chain.items × RunsBetween x y chain.items)) }
        ensures fewest { IfOk result (λ found. IfSome found
            (λ chain. (other : List Node) → IsChain self.now other → RunsBetween x y other
            → length chain.items ≤ length other)) }
        ensures tight { IfOk result (λ found. IfSome found (λ chain. IsTight chain.items)) }
        ensures none { IfOk result (λ found. IfNone found
            ((other : List Node) → IsChain self.now other → ¬ RunsBetween x y other)) }

        // What consistent facts entail has a chain.
        ensures complete { IfOk result
            (λ found. IsConsistent self.now → Entails self.now x y → IsSome found) }
    {
        if !reaches(self.facts.as_slice(), &self.matrix, x, y) {
            return Ok(None);
        }
        let chain = shortest_chain(*self.facts.allocator(), self.facts.as_slice(), x, y)?;
        Ok(Some(chain))
    }

    /// For each node the number nearest to 0 between the bounds that the facts force, where some
    /// valuation meets them.
    pub fn sample(&self) -> Result<Option<Sample>, AllocError>
        ensures none { IfOk result (λ found. IsNone found ↔ ¬ IsConsistent self.now) }
        ensures nearest { IfOk result (λ found. IfSome found
            (λ s. (n : Node) → IsSampled self.now n (sample_number s n))) }
        ensures meets { IfOk result (λ found. IfSome found
            (λ s. IsValuationOfI64 (valuation_of s) × Meets (valuation_of s) self.now)) }
    {
        if !self.consistent {
            return Ok(None);
        }
        let sample = Sample::of(*self.facts.allocator(), self.facts.as_slice(), &self.matrix)?;
        Ok(Some(sample))
    }
}
