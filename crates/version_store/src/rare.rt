//! Lists that hold nothing in most places.
ghost use Rattle.std.specs.Prelude.{◌≡◌, ◌≤◌, ◌++◌, ◌∷◌, [], length, drop, IsNone, OnOk, OnErr};
ghost use Rattle.std.specs.Fn.{CalledAt};
ghost use Rattle.std.specs.List.Retain.{IsFiltered};
ghost use Rattle.std.specs.Option.{option_to_list};

use crate::tail::Tail;
use std::alloc::{AllocError, Global};
use std::marker::Model;

/// A list that takes two words where it holds nothing; unless it is cleared, one whose items went
/// keeps its block. Contracts see the list.
#[derive(Debug, Drop)]
pub struct Rare<T> {
    alloc: Global,
    items: Option<Box<Tail<T>>>,
}

impl<T> Model for Rare<T> {
    ghost use Rattle.std.specs.Prelude.{List, []};
    ghost use Rattle.std.specs.Option.{option_map_or};

    ghost Value = { List T };

    ghost view = { λ r. option_map_or (λ b. b.value) r.items [] };
}

impl<T> Rare<T> {
    pub fn new(alloc: Global) -> Self
        ensures { result ≡ [] }
    {
        Rare { alloc, items: None }
    }

    pub fn as_slice(&self) -> &[T]
        ensures { result.now ≡ self.now }
    {
        match &self.items {
            Some(items) => items.as_slice(),
            None => &[],
        }
    }
}

impl<T: Drop> Rare<T> {
    /// Adds an item behind the others.
    pub fn push(&mut self, item: T) -> Result<(), AllocError>
        ensures ok { OnOk result (self.new ≡ self.old ++ item ∷ []) }
        ensures err { OnErr result (self.new ≡ self.old) }
    {
        if let Some(items) = &mut self.items {
            items.push(item)?;
            return Ok(());
        }
        let mut items = Tail::new(self.alloc);
        items.push(item)?;
        self.items = Some(Box::new(self.alloc, items)?);
        Ok(())
    }

    /// Takes the last item, if there is one.
    pub fn pop(&mut self) -> Option<T>
        ensures items { self.old ≡ self.new ++ option_to_list result }
        ensures none { IsNone result → self.new ≡ [] }
    {
        match &mut self.items {
            Some(items) => items.pop(),
            None => None,
        }
    }

    /// Keeps the items at which `f` answers `true`, in their order.
    pub fn retain<F: FnMut(&T) -> bool>(&mut self, f: F)
        requires { F.IsAlwaysCallable f }
        ensures filtered { IsFiltered (CalledAt F.FnMut) f self.old self.new }
        ensures bound { length self.new ≤ length self.old }
    {
        let Some(items) = &mut self.items else {
            return;
        };
        items.retain(f);
    }

    /// Drops the first items.
    pub fn drop_first(&mut self, count: usize)
        requires { count ≤ length self.old }
        ensures { self.new ≡ drop count self.old }
    {
        let Some(items) = &mut self.items else {
            return;
        };
        items.drop_first(count);
    }

    /// Drops all items, and gives their room back.
    pub fn clear(&mut self)
        ensures { self.new ≡ [] }
    {
        self.items = None;
    }
}
