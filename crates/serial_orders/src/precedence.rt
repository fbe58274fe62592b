//! What has to stand before what.

ghost use Rattle.std.specs.Prelude.{◌≡◌, ◌↔◌, ◌-◌, slice_get, Some, ◌<◌, ◌≤◌, ◌==◌, ◌&&◌, ◌||◌};
ghost use Rattle.std.specs.Prelude.{◌^◌, ℕ, true, false, length, IfOk, OnOk, OnErr, IsTrue};
ghost use Rattle.serial_orders.specs.Orders.{is_one_of};
ghost use Rattle.serial_orders.specs.Precedence.{behind, precedes};

use std::alloc::{AllocError, Global};
use std::marker::Model;

/// What has to stand before what: for each commit, numbered from 1, commits that have to stand
/// behind it.
#[derive(Debug, Drop)]
pub struct Precedence {
    after: Vec<Vec<usize>>,
}

impl Model for Precedence {
    ghost use Rattle.std.specs.Prelude.{List, ℕ};
    ghost use Rattle.serial_orders.specs.Precedence.{number_lists, HasCommitsAlone};

    ghost Value = { List (List ℕ) };

    ghost view = { λ p. number_lists p.after.items };

    ghost invariant = { λ p. HasCommitsAlone (number_lists p.after.items) };
}

// Whether the last of some numbers is this one.
fn ends_with(numbers: &[usize], number: usize) -> bool
    ensures { IsTrue result ↔ (slice_get numbers.now (length numbers.now - 1) ≡ Some number) }
{
    numbers.last().is_some_and(|last| *last == number)
}

impl Precedence {
    /// So many commits, of which none has to stand before another.
    pub(crate) fn new(alloc: Global, commits: usize) -> Result<Self, AllocError>
        ensures commits { IfOk result (λ precedence. length precedence ≡ commits) }
        ensures free { IfOk result (λ precedence. (i j : ℕ) → precedes precedence i j ≡ false) }
    {
        let mut after = Vec::with_capacity(alloc, commits)?;
        for _commit in 0..commits {
            after.push(Vec::new(alloc))?;
        }
        Ok(Precedence { after })
    }

    pub(crate) fn allocator(&self) -> Global {
        *self.after.allocator()
    }

    /// Puts a commit before another; a pair may be told twice.
    pub(crate) fn add(&mut self, first: usize, second: usize) -> Result<(), AllocError>
        requires first { 0 < first }
        requires first_within { first ≤ length self.old }
        requires second { 0 < second }
        requires second_within { second ≤ length self.old }
        ensures commits { length self.new ≡ length self.old }
        ensures ok { OnOk result ((i j : ℕ) → precedes self.new i j
            ≡ (precedes self.old i j || (i == first && j == second))) }
        ensures err { OnErr result (self.new ≡ self.old) }
    {
        if !ends_with(&self.after[first - 1], second) {
            self.after[first - 1].push(second)?;
        }
        Ok(())
    }

    /// How many commits there are.
    pub(crate) fn len(&self) -> usize
        ensures len { result ≡ length self.now }
        ensures small { result < 2 ^ 63 }
    {
        self.after.len()
    }

    /// The commits that have to stand behind one.
    pub(crate) fn behind(&self, commit: usize) -> &[usize]
        requires first { 0 < commit }
        requires within { commit ≤ length self.now }
        ensures numbers { result.now ≡ behind self.now commit }
        ensures known { (j : ℕ) → is_one_of result.now j ≡ true → (0 < j) × (j ≤ length self.now) }
    {
        &self.after[commit - 1]
    }
}
