//! The active instances of a book, by their numbers and by their starts.

ghost use Rattle.std.specs.Prelude.{◌≡◌, ◌<◌, ◌^◌, [], length, All, option_copied, OnOk, OnErr};
ghost use Rattle.std.specs.BTreeMap.{is_at, insert_entry};
ghost use Rattle.std.specs.List.Sorted.{IsStrictlySortedBy};
ghost use Rattle.std.specs.Map.{keys_of, lookup};
ghost use Rattle.std.specs.Ordering.{nat_cmp};
ghost use Rattle.history_book.specs.ActiveSet.{IsNoted};
ghost use Rattle.history_book.specs.View.{least_start, without};

use crate::instances::active::Active;
use std::alloc::{AllocError, Global};
use std::collections::{BTreeMap, BTreeSet};
use std::marker::Model;

/// How many commits an active instance sees, and its number.
#[derive(Clone, Copy, Debug, PartialEq, Eq, PartialOrd, Ord)]
pub struct InstanceStart {
    pub start: u64,
    pub number: u64,
}

/// The active instances. The least start is found without a walk over them.
#[derive(Debug, Drop)]
pub struct ActiveSet {
    by_number: BTreeMap<u64, Active>,
    // Those that began out of turn, with an older start than one that began before them.
    out_of_turn: BTreeSet<InstanceStart>,
    // No start is greater.
    newest: u64,
}

impl Model for ActiveSet {
    ghost use Rattle.std.specs.Prelude.{ℕ, List};
    ghost use Rattle.history_book.specs.ActiveSet.{AreInTurn};
    ghost use Rattle.history_book.specs.History.{Instance};

    ghost Value = { List (ℕ × Instance) };

    ghost view = { λ s. s.by_number.entries };

    ghost invariant = { λ s. AreInTurn s.by_number.entries s.out_of_turn s.newest };
}

// Keeps the start of an instance that begins now, where one that began before has a newer start.
fn note(
    out_of_turn: &mut BTreeSet<InstanceStart>,
    newest: u64,
    start: InstanceStart,
) -> Result<(), AllocError>
    ensures ok { OnOk result (IsNoted newest start out_of_turn.old out_of_turn.new) }
    ensures err { OnErr result (out_of_turn.new.keys ≡ out_of_turn.old.keys) }
{
    if start.start >= newest {
        return Ok(());
    }
    out_of_turn.insert(start)?;
    Ok(())
}

impl ActiveSet {
    pub fn new(alloc: Global) -> Self
        ensures { result ≡ [] }
    {
        ActiveSet {
            by_number: BTreeMap::new(alloc),
            out_of_turn: BTreeSet::new(alloc),
            newest: 0,
        }
    }

    pub fn len(&self) -> usize
        ensures count { result ≡ length self.now }
        ensures small { result < 2 ^ 63 }
    {
        self.by_number.len()
    }

    /// The active instance of a number.
    pub fn get(&self, number: u64) -> Option<&Active>
        ensures { option_copied result ≡ lookup (is_at (nat_cmp number)) self.now }
    {
        self.by_number.get(&number)
    }

    /// Adds an instance under a number above all others; without memory nothing changes.
    pub fn insert(&mut self, number: u64, active: Active) -> Result<(), AllocError>
        requires { All (λ e. e.0 < number) self.old }
        ensures ok { OnOk result (self.new ≡ insert_entry nat_cmp self.old number active) }
        ensures err { OnErr result (self.new ≡ self.old) }
        ensures ordered { IsStrictlySortedBy nat_cmp (keys_of self.new) }
    {
        let start = InstanceStart {
            start: active.start,
            number,
        };
        note(&mut self.out_of_turn, self.newest, start)?;
        match self.by_number.insert(number, active) {
            Ok(_) => {
                self.newest = self.newest.max(start.start);
                Ok(())
            }
            Err(_) => {
                self.out_of_turn.remove(&start);
                Err(AllocError)
            }
        }
    }

    /// Removes the instance of a number, where there is one.
    pub fn remove(&mut self, number: u64)
        ensures removed { self.new ≡ without number self.old }
        ensures ordered { IsStrictlySortedBy nat_cmp (keys_of self.new) }
    {
        if let Some(active) = self.by_number.remove(&number) {
            let start = active.start;
            self.out_of_turn.remove(&InstanceStart { start, number });
        }
    }

    /// The least of a number of commits and of the starts of all instances.
    pub fn least_start(&self, commits: u64) -> u64
        ensures { result ≡ least_start commits self.now }
    {
        let Some((_, first)) = self.by_number.first_key_value() else {
            return commits;
        };
        let least = first.start.min(commits);
        match self.out_of_turn.first() {
            Some(other) => other.start.min(least),
            None => least,
        }
    }
}
