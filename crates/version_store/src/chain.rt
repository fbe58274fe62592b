//! What the store keeps of one cell.
ghost use Rattle.std.specs.Prelude.{◌≡◌, ◌↔◌, ◌≤◌, ◌+◌, length, leb, None, IsTrue, OnOk, OnErr};
ghost use Rattle.std.specs.List.{prefix_len};
ghost use Rattle.version_store.specs.Blocks.{Covers, HoldsIn};
ghost use Rattle.version_store.specs.Reading.{RisesFrom, value_at, last_number_or, last_number};
ghost use Rattle.version_store.specs.Reading.{cut_from};
ghost use Rattle.version_store.specs.StandsFor.{no_chain, trimmed};
ghost use Rattle.version_store.specs.Touches.{with_touch};

use crate::rare::Rare;
use crate::stretch::Stretch;
use crate::touches::Touch;
use crate::versions::Versions;
use std::alloc::{AllocError, Global};
use std::marker::Model;

/// The versions of a cell, and the numbers of the commits that keep it. Both rise.
#[derive(Debug, Drop)]
pub struct VersionChain {
    versions: Versions,
    marks: Rare<u64>,
}

impl Model for VersionChain {
    ghost use Rattle.version_store.specs.StandsFor.{VersionChain};

    ghost Value = { VersionChain };

    ghost view = { λ c. record { versions = c.versions; marks = c.marks } };
}

// The last mark, or 0.
fn last_mark(marks: &[u64]) -> u64
    ensures { result ≡ last_number_or 0 marks.now }
{
    match marks.last() {
        Some(mark) => *mark,
        None => 0,
    }
}

// How many of the marks go at a floor: those at most it.
fn outdated_marks(marks: &[u64], floor: u64) -> usize
    ensures value { result ≡ prefix_len (λ mark. leb mark floor) marks.now }
    ensures within { result ≤ length marks.now }
{
    marks.iter().take_while(|mark| **mark <= floor).count()
}

impl VersionChain {
    pub fn new(alloc: Global) -> Self
        ensures { result ≡ no_chain }
    {
        VersionChain {
            versions: Versions::new(alloc),
            marks: Rare::new(alloc),
        }
    }

    /// What the cell held after the first `number` commits.
    #[inline]
    pub fn value_at(&self, number: u64) -> Option<i64>
        ensures { RisesFrom 0 self.now.versions → result ≡ value_at number self.now }
    {
        self.versions.value_at(number)
    }

    /// How long the cell holds what it held after the first `number` commits.
    #[inline]
    pub fn stretch_at(&self, number: u64) -> Stretch
        ensures holds { RisesFrom 0 self.now.versions → HoldsIn result self.now.versions }
        ensures start { RisesFrom 0 self.now.versions → Covers result number }
    {
        self.versions.stretch_at(number)
    }

    /// The greatest number in it, or 0.
    pub fn last_number(&self) -> u64
        ensures { result ≡ last_number self.now }
    {
        let mark = last_mark(self.marks.as_slice());
        self.versions.last_number().max(mark)
    }

    /// Adds a touch behind the others.
    pub fn add(&mut self, number: u64, touch: Touch) -> Result<(), AllocError>
        ensures ok { OnOk result (self.new ≡ with_touch number touch self.old) }
        ensures err { OnErr result (self.new ≡ self.old) }
    {
        match touch {
            Touch::Change(value) => self.versions.push(number, value)?,
            Touch::Keep => self.marks.push(number)?,
        }
        Ok(())
    }

    /// Drops what has this number or a greater one.
    pub fn cut_from(&mut self, number: u64)
        ensures { self.new ≡ cut_from number self.old }
    {
        self.versions.cut_from(number);
        self.marks.retain(|mark| *mark < number);
    }

    /// Drops what a vacuum at the floor takes, and answers how many versions that were.
    pub fn trim(&mut self, floor: u64) -> usize
        ensures chain { self.new ≡ trimmed floor self.old }
        ensures count { length self.new.versions + result ≡ length self.old.versions }
    {
        let marks = outdated_marks(self.marks.as_slice(), floor);
        self.marks.drop_first(marks);
        self.versions.trim(floor)
    }

    /// Whether nothing is left of it.
    pub fn is_empty(&self) -> bool
        ensures { IsTrue result ↔ (self.now ≡ no_chain) }
    {
        self.versions.is_empty() && self.marks.as_slice().is_empty()
    }
}
