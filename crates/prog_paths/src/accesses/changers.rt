//! The accesses that change a table, found by their table.
ghost use Rattle.std.specs.Prelude.{◌≡◌, ◌≤◌, ◌-◌, ℕ, take, drop, true, false, length, nat_lt};
ghost use Rattle.std.specs.Prelude.{nat_le, IfOk};
ghost use Rattle.std.specs.List.{filter};
ghost use Rattle.std.specs.List.Sorted.{IsPartitionPoint};
ghost use Rattle.prog_paths.specs.Tally.{of_table};
ghost use Rattle.prog_paths.specs.Changers.{changes, changers_of, AreByTable};

use crate::accesses::places::Placed;
use prog_check::Kind;
use std::alloc::{AllocError, Global};
use std::marker::Model;

// Whether an access of this kind changes rows that others may ask about.
fn changes(kind: Kind) -> bool
    ensures { result ≡ changes kind }
{
    matches!(kind, Kind::Writes | Kind::Adds)
}

fn changers_among(alloc: Global, places: &[Placed]) -> Result<Vec<Placed>, AllocError>
    ensures { IfOk result
        (λ changers. changers.items ≡ filter (λ p. changes p.access.kind) places.now) }
{
    let mut changers = Vec::new(alloc);
    for place in places {
        if changes(place.access.kind) {
            changers.push(*place)?;
        }
    }
    Ok(changers)
}

// How many accesses are of tables below this one.
fn count_below(places: &[Placed], table: usize) -> usize
    ensures bound { result ≤ length places.now }
    ensures cut { AreByTable places.now → IsPartitionPoint (λ p. nat_lt p.access.table table ≡ true)
        (λ p. nat_lt p.access.table table ≡ false) places.now result }
{
    places.partition_point(|place| place.access.table < table)
}

// How many accesses are of this table or of tables below it.
fn count_through(places: &[Placed], table: usize) -> usize
    ensures bound { result ≤ length places.now }
    ensures cut { AreByTable places.now → IsPartitionPoint (λ p. nat_le p.access.table table ≡ true)
        (λ p. nat_le p.access.table table ≡ false) places.now result }
{
    places.partition_point(|place| place.access.table <= table)
}

// Where the accesses of a table begin, and where they end.
fn bounds(places: &[Placed], table: usize) -> (usize, usize)
    requires { AreByTable places.now }
    ensures rises { result.0 ≤ result.1 }
    ensures within { result.1 ≤ length places.now }
    ensures cut { take (result.1 - result.0) (drop result.0 places.now)
        ≡ of_table table places.now }
{
    let start = count_below(places, table);
    let end = count_through(places, table);
    (start, end)
}

/// Those of some accesses that change their table. A question is always one of the first access
/// against such an access, so only these are looked through.
#[derive(Drop)]
pub struct Changers {
    // By table, those of one table in their order.
    places: Vec<Placed>,
}

impl Model for Changers {
    ghost use Rattle.std.specs.Prelude.{List};
    ghost use Rattle.prog_paths.specs.declared.accesses.places.Placed.{Placed};
    ghost use Rattle.prog_paths.specs.Changers.{AreByTable};

    ghost Value = { List Placed };

    ghost view = { λ c. c.places.items };

    ghost invariant = { λ c. AreByTable c.places.items };
}

impl Changers {
    /// The changers among some accesses.
    pub fn of(alloc: Global, places: &[Placed]) -> Result<Self, AllocError>
        ensures { IfOk result (λ changers. (table : ℕ)
            → of_table table changers ≡ changers_of table places.now) }
    {
        let mut changers = changers_among(alloc, places)?;
        changers.sort_by_key(|place| place.access.table)?;
        Ok(Changers { places: changers })
    }

    /// Those of a table, in their order.
    pub fn of_table(&self, table: usize) -> &[Placed]
        ensures { result.now ≡ of_table table self.now }
    {
        let (start, end) = bounds(&self.places, table);
        &self.places[start..end]
    }
}
