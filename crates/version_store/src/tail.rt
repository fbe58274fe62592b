//! Lists from which the first items go.
ghost use Rattle.std.specs.Prelude.{◌≡◌, ◌≤◌, ◌++◌, ◌∷◌, [], length, drop, IsNone, OnOk, OnErr};
ghost use Rattle.std.specs.Fn.{CalledAt};
ghost use Rattle.std.specs.List.Retain.{IsFiltered};
ghost use Rattle.std.specs.Option.{option_to_list};

use std::alloc::{AllocError, Global};
use std::marker::Model;

/// What is left of a list whose first items have gone. They stay in its block until they are more
/// than the others, so to take items from the front moves no more of them than have gone. Contracts
/// see what is left.
#[derive(Debug, Drop)]
pub struct Tail<T> {
    items: Vec<T>,
    gone: usize,
}

impl<T> Model for Tail<T> {
    ghost use Rattle.std.specs.Prelude.{◌≤◌, List, length, drop};

    ghost Value = { List T };

    ghost view = { λ t. drop t.gone t.items.items };

    ghost invariant = { λ t. t.gone ≤ length t.items.items };
}

// Drops the items that have gone, and where there are any gives back the room that is not needed.
fn drop_gone<T: Drop>(items: &mut Vec<T>, gone: &mut usize)
    requires { gone.old ≤ length items.old.items }
    ensures items { items.new.items ≡ drop gone.old items.old.items }
    ensures none { gone.new ≡ 0 }
{
    if *gone > 0 {
        items.drain(..*gone);
        items.shrink_to_fit();
    }
    *gone = 0;
}

impl<T> Tail<T> {
    pub fn new(alloc: Global) -> Self
        ensures { result ≡ [] }
    {
        Tail {
            items: Vec::new(alloc),
            gone: 0,
        }
    }

    pub fn as_slice(&self) -> &[T]
        ensures { result.now ≡ self.now }
    {
        &self.items[self.gone..]
    }
}

impl<T: Drop> Tail<T> {
    /// Adds an item behind the others.
    pub fn push(&mut self, item: T) -> Result<(), AllocError>
        ensures ok { OnOk result (self.new ≡ self.old ++ item ∷ []) }
        ensures err { OnErr result (self.new ≡ self.old) }
    {
        self.items.push(item)?;
        Ok(())
    }

    /// Takes the last item, if there is one.
    pub fn pop(&mut self) -> Option<T>
        ensures items { self.old ≡ self.new ++ option_to_list result }
        ensures none { IsNone result → self.new ≡ [] }
    {
        drop_gone(&mut self.items, &mut self.gone);
        self.items.pop()
    }

    /// Keeps the items at which `f` answers `true`, in their order.
    pub fn retain<F: FnMut(&T) -> bool>(&mut self, f: F)
        requires { F.IsAlwaysCallable f }
        ensures filtered { IsFiltered (CalledAt F.FnMut) f self.old self.new }
        ensures bound { length self.new ≤ length self.old }
    {
        drop_gone(&mut self.items, &mut self.gone);
        self.items.retain(f);
    }

    /// Drops the first items.
    pub fn drop_first(&mut self, count: usize)
        requires { count ≤ length self.old }
        ensures { self.new ≡ drop count self.old }
    {
        self.gone += count;
        if self.gone > self.items.len() / 2 {
            drop_gone(&mut self.items, &mut self.gone);
        }
    }
}
