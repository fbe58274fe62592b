//! The names that a run has bound, with their values.

ghost use Rattle.std.specs.Prelude.{◌≡◌, ◌↔◌, [], ◌∷◌, ◌++◌, length, take, IfOk, IsTrue, OnOk};
ghost use Rattle.std.specs.Prelude.{OnErr};
ghost use Rattle.prog_tree.specs.Value.{value_in};

use crate::name::Name;
use std::alloc::{AllocError, Global};
use std::marker::Model;

/// A name with its value.
#[derive(Debug, Drop)]
struct Binding<'a> {
    name: &'a Name,
    value: i64,
}

impl<'a> Model for Binding<'a> {
    ghost use Rattle.std.specs.Prelude.{List, ℕ, ℤ};

    ghost Value = { List ℕ × ℤ };

    ghost view = { λ b. (b.name.now, b.value) };
}

/// The names that a run has bound, with their values. Of a name that is bound twice the last value
/// counts.
#[derive(Debug, Drop)]
pub struct Env<'a> {
    bindings: Vec<Binding<'a>>,
}

impl<'a> Model for Env<'a> {
    ghost use Rattle.prog_tree.specs.Value.{Bindings};

    ghost Value = { Bindings };

    ghost view = { λ e. e.bindings.items };
}

impl<'a> Env<'a> {
    pub fn new(alloc: Global) -> Self
        ensures { result ≡ [] }
    {
        Env {
            bindings: Vec::new(alloc),
        }
    }

    /// No names, with room for so many.
    pub fn with_capacity(alloc: Global, names: usize) -> Result<Self, AllocError>
        ensures { IfOk result (λ env. env ≡ []) }
    {
        Ok(Env {
            bindings: Vec::with_capacity(alloc, names)?,
        })
    }

    pub fn bind(&mut self, name: &'a Name, value: i64) -> Result<(), AllocError>
        ensures ok { OnOk result (self.new ≡ self.old ++ (name.now, value) ∷ []) }
        ensures err { OnErr result (self.new ≡ self.old) }
    {
        self.bindings.push(Binding { name, value })?;
        Ok(())
    }

    #[tactic(auto, using(crate::proofs::EnvLemmas::value_in_push))]
    pub fn get(&self, name: &Name) -> Option<i64>
        ensures { result ≡ value_in self.now name.now }
    {
        for binding in self.bindings.iter().rev() {
            if binding.name.is_same(name) {
                return Some(binding.value);
            }
        }
        None
    }

    pub fn len(&self) -> usize
        ensures { result ≡ length self.now }
    {
        self.bindings.len()
    }

    pub fn is_empty(&self) -> bool
        ensures { IsTrue result ↔ (self.now ≡ []) }
    {
        self.bindings.is_empty()
    }

    /// Keeps the first `len` names, or all where there are fewer.
    pub fn cut(&mut self, len: usize)
        ensures { self.new ≡ take len self.old }
    {
        self.bindings.truncate(len);
    }
}
