//! The versions of one cell.
ghost use Rattle.std.specs.List.{list_all};
ghost use Rattle.std.specs.Prelude.{◌≡◌, ◌↔◌, ◌≤◌, ◌+◌, ◌++◌, ◌∷◌, [], None, length, drop, filter};
ghost use Rattle.std.specs.Prelude.{leb, nat_lt, IsTrue, OnOk, OnErr};
ghost use Rattle.version_store.specs.Blocks.{Covers, HoldsIn};
ghost use Rattle.version_store.specs.Reading.{RisesFrom, IsCutAt, value_after, version_numbers};
ghost use Rattle.version_store.specs.Reading.{last_number_or};
ghost use Rattle.version_store.specs.Trimming.{versions_kept};

use crate::rare::Rare;
use crate::stretch::{NOTHING, Stretch, stretch_among};
use crate::version::Version;
use std::alloc::{AllocError, Global};
use std::marker::Model;

/// Versions by rising numbers. The newest stands in place: most cells have no other, and most reads
/// want it.
#[derive(Debug, Drop)]
pub struct Versions {
    older: Rare<Version>,
    newest: Option<Version>,
}

impl Model for Versions {
    ghost use Rattle.std.specs.Prelude.{ℕ, ℤ, List, Option};
    ghost use Rattle.version_store.specs.Newest.{with_newest, HasNewest};

    ghost Value = { List (ℕ × Option ℤ) };

    ghost view = { λ v. with_newest v.older v.newest };

    ghost invariant = { λ v. HasNewest v.older v.newest };
}

/// How many versions are at most a number.
pub fn count_within(versions: &[Version], number: u64) -> usize
    ensures bound { result ≤ length versions.now }
    ensures cut { RisesFrom 0 versions.now → IsCutAt number versions.now result }
{
    versions.partition_point(|version| version.number <= number)
}

// What the cell of some versions held after the first `number` commits.
#[inline(never)]
fn value_among(versions: &[Version], number: u64) -> Option<i64>
    ensures { RisesFrom 0 versions.now → result ≡ value_after number None versions.now }
{
    let count = count_within(versions, number);
    if count == 0 {
        return None;
    }
    let version = versions[count - 1];
    version.value
}

// How many of the versions go at a floor: those at most it but the last of them, and that one too
// where it is a removal.
fn outdated_versions(versions: &[Version], floor: u64) -> usize
    ensures bound { result ≤ length versions.now }
    ensures kept { versions_kept floor [] versions.now ≡ drop result versions.now }
{
    let mut outdated = 0;
    for place in 0..versions.len() {
        let version = versions[place];
        if version.number > floor {
            return outdated;
        }
        outdated = if version.value.is_some() {
            place
        } else {
            place + 1
        };
    }
    outdated
}

// Whether all versions are at most a floor.
fn are_within(versions: &[Version], floor: u64) -> bool
    ensures { result ≡ list_all (λ v. leb v.0 floor) versions.now }
{
    versions.iter().all(|version| version.number <= floor)
}

// Drops what a vacuum at the floor takes, and answers how many versions that were.
fn trim_list(versions: &mut Rare<Version>, floor: u64) -> usize
    ensures versions { versions.new ≡ versions_kept floor [] versions.old }
    ensures count { length versions.new + result ≡ length versions.old }
{
    let outdated = outdated_versions(versions.as_slice(), floor);
    versions.drop_first(outdated);
    outdated
}

impl Versions {
    pub fn new(alloc: Global) -> Self
        ensures { result ≡ [] }
    {
        Versions {
            older: Rare::new(alloc),
            newest: None,
        }
    }

    /// The number of the last version, or 0.
    pub fn last_number(&self) -> u64
        ensures { result ≡ last_number_or 0 (version_numbers self.now) }
    {
        match self.newest {
            Some(version) => version.number,
            None => 0,
        }
    }

    /// What the cell held after the first `number` commits.
    #[inline]
    pub fn value_at(&self, number: u64) -> Option<i64>
        ensures { RisesFrom 0 self.now → result ≡ value_after number None self.now }
    {
        let newest = self.newest?;
        if newest.number <= number {
            return newest.value;
        }
        value_among(self.older.as_slice(), number)
    }

    /// How long the cell holds what it held after the first `number` commits.
    #[inline]
    pub fn stretch_at(&self, number: u64) -> Stretch
        ensures holds { RisesFrom 0 self.now → HoldsIn result self.now }
        ensures start { RisesFrom 0 self.now → Covers result number }
    {
        let Some(newest) = self.newest else {
            return NOTHING;
        };
        if newest.number > number {
            return stretch_among(self.older.as_slice(), number, newest.number);
        }
        Stretch {
            since: newest.number,
            till: u64::MAX,
            value: newest.value,
        }
    }

    /// Adds a version behind the others.
    pub fn push(&mut self, number: u64, value: Option<i64>) -> Result<(), AllocError>
        ensures ok { OnOk result (self.new ≡ self.old ++ (number, value) ∷ []) }
        ensures err { OnErr result (self.new ≡ self.old) }
    {
        if let Some(newest) = self.newest {
            self.older.push(newest)?;
        }
        self.newest = Some(Version { number, value });
        Ok(())
    }

    /// Drops those of this number or a greater one.
    pub fn cut_from(&mut self, number: u64)
        ensures { self.new ≡ filter (λ v. nat_lt v.0 number) self.old }
    {
        self.older.retain(|version| version.number < number);
        if let Some(newest) = self.newest {
            if newest.number >= number {
                self.newest = self.older.pop();
            }
        }
    }

    /// Drops what a vacuum at the floor takes, and answers how many versions that were.
    pub fn trim(&mut self, floor: u64) -> usize
        ensures versions { self.new ≡ versions_kept floor [] self.old }
        ensures count { length self.new + result ≡ length self.old }
    {
        let Some(newest) = self.newest else {
            return 0;
        };
        if newest.number > floor || !are_within(self.older.as_slice(), floor) {
            return trim_list(&mut self.older, floor);
        }
        let older = self.older.as_slice().len();
        self.older.clear();
        if newest.value.is_some() {
            return older;
        }
        self.newest = None;
        older + 1
    }

    /// Whether there is none.
    pub fn is_empty(&self) -> bool
        ensures { IsTrue result ↔ (self.now ≡ []) }
    {
        self.newest.is_none()
    }
}
