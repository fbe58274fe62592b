//! How long a cell holds what it holds.
ghost use Rattle.std.specs.Prelude.{◌≡◌, ℕ, ◌<◌, ℤ, length, Option, slice_index_or};
ghost use Rattle.version_store.specs.Blocks.{Covers, HoldsIn, InStretch, SeesIn};
ghost use Rattle.version_store.specs.Reading.{RisesFrom};

use crate::chain::VersionChain;
use crate::version::Version;
use crate::versions::count_within;
use prog_tree::{Cell, Region, lies_between};

/// What a cell holds after each number of commits from `since` on and below `till`.
#[derive(Clone, Copy, Debug)]
pub struct Stretch {
    pub since: u64,
    pub till: u64,
    pub value: Option<i64>,
}

/// The stretch of a cell that never holds anything.
pub const NOTHING: Stretch = Stretch {
    since: 0,
    till: u64::MAX,
    value: None,
};

// The number of the version at a place, or another one where that is less or no version is there.
fn till_at(versions: &[Version], place: usize, end: u64) -> u64
    ensures place { (d : ℕ × Option ℤ) → (n : ℕ) → n < result → place < length versions.now →
        n < (slice_index_or versions.now place d).0 }
    ensures end { (n : ℕ) → n < result → n < end }
    ensures least { (n : ℕ) → n < end →
        ((d : ℕ × Option ℤ) → place < length versions.now →
        n < (slice_index_or versions.now place d).0) → n < result }
{
    match versions.get(place) {
        Some(version) => version.number.min(end),
        None => end,
    }
}

/// How long the cell of some versions holds what it held after the first `number` commits, where
/// the version behind them has the number `end`.
pub fn stretch_among(versions: &[Version], number: u64, end: u64) -> Stretch
    ensures holds { RisesFrom 0 versions.now → HoldsIn result versions.now }
    ensures end { (n : ℕ) → n < result.till → n < end }
    ensures start { RisesFrom 0 versions.now → number < end → InStretch result number }
{
    let count = count_within(versions, number);
    let till = till_at(versions, count, end);
    if count == 0 {
        return Stretch {
            since: 0,
            till,
            value: None,
        };
    }
    let version = versions[count - 1];
    Stretch {
        since: version.number,
        till,
        value: version.value,
    }
}

/// How long a region has of a cell between its corners what it had after the first `start` commits.
#[inline]
pub fn stretch_between(region: &Region, start: u64, cell: &Cell, chain: &VersionChain) -> Stretch
    ensures sees { RisesFrom 0 chain.now.versions → SeesIn region.now result cell.now chain.now }
    ensures start { RisesFrom 0 chain.now.versions → Covers result start }
{
    if !lies_between(region.second_low, cell.second, region.second_high) {
        return NOTHING;
    }
    chain.stretch_at(start)
}
