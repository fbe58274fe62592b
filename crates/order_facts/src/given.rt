//! The facts that are given.

ghost use Rattle.std.specs.Prelude.{◌≡◌, ◌↔◌, [], ◌∷◌, ◌++◌, IfOk, OnOk, OnErr, IsTrue};
ghost use Rattle.order_facts.specs.Chain.{IsChain};

use crate::closed::Closed;
use crate::steps::{Fact, Node, is_chain};
use std::alloc::{AllocError, Global};
use std::marker::Model;

/// Facts of the form `lo <= hi`, in the order in which they were added.
#[derive(Debug, Drop)]
pub struct Facts {
    items: Vec<Fact>,
}

impl Model for Facts {
    ghost use Rattle.std.specs.Prelude.{List};
    ghost use Rattle.order_facts.specs.declared.steps.Fact.{Fact};

    ghost Value = { List Fact };

    ghost view = { λ f. f.items.items };
}

impl Facts {
    /// No facts.
    pub fn new(alloc: Global) -> Self
        ensures { result ≡ [] }
    {
        Facts {
            items: Vec::new(alloc),
        }
    }

    /// Adds the fact that `lo` is at most `hi`.
    pub fn add(&mut self, lo: Node, hi: Node) -> Result<(), AllocError>
        ensures ok { OnOk result (self.new ≡ self.old ++ record { lo = lo; hi = hi } ∷ []) }
        ensures err { OnErr result (self.new ≡ self.old) }
    {
        self.items.push(Fact { lo, hi })?;
        Ok(())
    }

    /// What the facts entail, with a copy of them.
    pub fn close(&self) -> Result<Closed, AllocError>
        ensures { IfOk result (λ closed. closed ≡ self.now) }
    {
        Closed::of(*self.items.allocator(), &self.items)
    }
}

/// Whether the nodes are a chain of the facts.
pub fn check_chain(facts: &Facts, chain: &[Node]) -> bool
    ensures { IsTrue result ↔ IsChain facts.now chain.now }
{
    is_chain(&facts.items, chain)
}
