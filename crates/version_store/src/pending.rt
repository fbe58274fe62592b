//! Which cells the commits above the floor touched.
ghost use Rattle.std.specs.Prelude.{◌≡◌, [], ◌∷◌, ◌++◌, length, take, IfSome, IfNone, OnOk, OnErr};
ghost use Rattle.version_store.specs.Trimming.{touches_by, within, beyond, TakesWithin};

use crate::touches::Touches;
use prog_tree::{Cell, Changes};
use std::alloc::{AllocError, Global};
use std::collections::VecDeque;
use std::marker::Model;

/// The touches of commits by their numbers, in the order of the commits.
#[derive(Debug, Drop)]
pub struct Pending {
    touches: VecDeque<(u64, Cell)>,
}

impl Model for Pending {
    ghost use Rattle.std.specs.Prelude.{ℕ, List};
    ghost use Rattle.prog_tree.specs.declared.cell.Cell.{Cell};

    ghost Value = { List (ℕ × Cell) };

    ghost view = { λ p. p.touches.items };
}

impl Pending {
    pub fn new(alloc: Global) -> Self
        ensures { result ≡ [] }
    {
        Pending {
            touches: VecDeque::new(alloc),
        }
    }

    /// How many touches it has.
    pub fn len(&self) -> usize
        ensures { result ≡ length self.now }
    {
        self.touches.len()
    }

    /// Keeps the first touches alone.
    pub fn truncate(&mut self, count: usize)
        ensures { self.new ≡ take count self.old }
    {
        self.touches.truncate(count);
    }

    fn push(&mut self, number: u64, cell: Cell) -> Result<(), AllocError>
        ensures ok { OnOk result (self.new ≡ self.old ++ (number, cell) ∷ []) }
        ensures err { OnErr result (self.new ≡ self.old) }
    {
        self.touches.push_back((number, cell))?;
        Ok(())
    }

    // Adds the touches of a commit, or some of them.
    fn add_touches(&mut self, number: u64, changes: &Changes) -> Result<(), AllocError>
        ensures ok { OnOk result (self.new ≡ self.old ++ touches_by number changes.now) }
        ensures first { take (length self.old) self.new ≡ self.old }
    {
        for (cell, _) in Touches::of(changes) {
            self.push(number, cell)?;
        }
        Ok(())
    }

    /// Adds the touches of a commit, or without memory none of them.
    pub fn add(&mut self, number: u64, changes: &Changes) -> Result<(), AllocError>
        ensures ok { OnOk result (self.new ≡ self.old ++ touches_by number changes.now) }
        ensures err { OnErr result (self.new ≡ self.old) }
        ensures first { take (length self.old) self.new ≡ self.old }
    {
        let before = self.len();
        let Ok(()) = self.add_touches(number, changes) else {
            self.truncate(before);
            return Err(AllocError);
        };
        Ok(())
    }

    /// Takes the first touch where it is at most a floor, and answers with its cell.
    pub fn next_within(&mut self, floor: u64) -> Option<Cell>
        ensures some { IfSome result (λ cell. TakesWithin floor cell self.old self.new) }
        ensures none { IfNone result (within floor self.old ≡ []) }
        ensures left { IfNone result (self.new ≡ beyond floor self.old) }
    {
        let (number, cell) = *self.touches.front()?;
        if number > floor {
            return None;
        }
        let _ = self.touches.pop_front();
        Some(cell)
    }
}
