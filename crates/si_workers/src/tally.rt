//! How often things were noted.

ghost use Rattle.std.specs.Ordering.{nat_cmp};
ghost use Rattle.std.specs.Prelude.{◌≡◌, ◌↔◌, ℕ, [], IfOk, IsTrue, OnOk, sum_by};
ghost use Rattle.si_workers.specs.Tally.{AreSameCounts, IsCovered, Tallies, TalliesNumbers};
ghost use Rattle.si_workers.specs.Tally.{count_in, count_of, more, times_noted};

use std::alloc::{AllocError, Global};
use std::collections::BTreeMap;
use std::marker::Model;

/// What notes a key so many times, or none.
pub trait Notes<'c, K: Ord> {
    /// How often it notes each key.
    ghost times: { Self → K → ℕ };

    fn noted(&'c self) -> Option<(K, u64)>
        ensures { (q : K) → times_noted K.cmp result q ≡ times self.now q };
}

/// How often each key was noted, as far as a u64 can tell.
#[derive(Debug, Drop)]
pub struct Tally<K: Ord> {
    counts: BTreeMap<K, u64>,
}

impl<K: Ord> Model for Tally<K> {
    ghost use Rattle.std.specs.Prelude.{List, ℕ};

    ghost Value = { List (K × ℕ) };

    ghost view = { λ t. t.counts.entries };
}

impl<K: Ord + Drop> Tally<K> {
    pub fn new(alloc: Global) -> Self
        ensures { result ≡ [] }
    {
        Tally {
            counts: BTreeMap::new(alloc),
        }
    }

    /// How often a key was noted.
    pub fn count(&self, key: &K) -> u64
        ensures { result ≡ count_in K.cmp self.now key.now }
    {
        self.counts.get(key).copied().unwrap_or(0)
    }

    /// Notes a key so many times.
    pub fn note(&mut self, key: K, times: u64) -> Result<(), AllocError>
        ensures { OnOk result ((q : K) → count_in K.cmp self.new q
            ≡ more K.cmp key times q (count_in K.cmp self.old q)) }
    {
        let entry = self.counts.entry(key)?;
        let noted = entry.or_insert(0);
        *noted = noted.saturating_add(times);
        Ok(())
    }

    // Whether each key of it was noted as often in another.
    fn is_covered(&self, other: &Self) -> bool
        ensures told { IsTrue result ↔ IsCovered K.cmp self.now other.now }
        ensures own { IsCovered K.cmp self.now self.now }
    {
        for (key, count) in self.counts.iter() {
            if other.count(key) != *count {
                return false;
            }
        }
        true
    }

    /// Whether each key was noted as often in another.
    pub fn is_same(&self, other: &Self) -> bool
        ensures { IsTrue result ↔ AreSameCounts K.cmp self.now other.now }
    {
        let covered = self.is_covered(other);
        let covers = other.is_covered(self);
        covered && covers
    }

    /// How often each key is noted by some things.
    pub fn of<'c, X: Notes<'c, K>>(alloc: Global, things: &'c [X]) -> Result<Self, AllocError>
        ensures { IfOk result (Tallies K.cmp (λ q. sum_by (λ x. X.times x q) things.now)) }
    {
        let mut tally = Tally::new(alloc);
        for thing in things {
            if let Some((key, times)) = thing.noted() {
                tally.note(key, times)?;
            }
        }
        Ok(tally)
    }
}

/// How often each number was noted, as far as a u64 can tell. Numbers below a bound have a place
/// of their own; the others are looked up.
#[derive(Debug, Drop)]
pub struct NumberTally {
    near: Vec<u64>,
    far: Tally<u64>,
}

impl Model for NumberTally {
    ghost use Rattle.si_workers.specs.Tally.{NumberCounts};

    ghost Value = { NumberCounts };

    ghost view = { λ t. record { near = t.near.items; far = t.far } };
}

impl NumberTally {
    /// No number was noted.
    pub fn new(alloc: Global, bound: usize) -> Result<Self, AllocError>
        ensures { IfOk result (λ tally. (q : ℕ) → count_of tally q ≡ 0) }
    {
        Ok(NumberTally {
            near: vec![in alloc; 0; bound]?,
            far: Tally::new(alloc),
        })
    }

    /// How often a number was noted.
    pub fn count(&self, number: u64) -> u64
        ensures { result ≡ count_of self.now number }
    {
        match self.near.get(number as usize) {
            Some(count) => *count,
            None => self.far.count(&number),
        }
    }

    /// Notes a number so many times.
    pub fn note(&mut self, number: u64, times: u64) -> Result<(), AllocError>
        ensures { OnOk result ((q : ℕ) → count_of self.new q
            ≡ more nat_cmp number times q (count_of self.old q)) }
    {
        match self.near.get_mut(number as usize) {
            Some(count) => {
                *count = count.saturating_add(times);
                Ok(())
            }
            None => self.far.note(number, times),
        }
    }

    /// How often each number is noted by some things, of which most are below a bound.
    pub fn of<'c, X: Notes<'c, u64>>(
        alloc: Global,
        bound: usize,
        things: &'c [X],
    ) -> Result<Self, AllocError>
        ensures { IfOk result (TalliesNumbers (λ q. sum_by (λ x. X.times x q) things.now)) }
    {
        let mut tally = NumberTally::new(alloc, bound)?;
        for thing in things {
            if let Some((number, times)) = thing.noted() {
                tally.note(number, times)?;
            }
        }
        Ok(tally)
    }
}
