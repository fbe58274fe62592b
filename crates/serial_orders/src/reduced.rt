//! Which commits have to stand before which, in few pairs.

ghost use Rattle.std.specs.Prelude.{◌≡◌, ◌↔◌, length, slice_get, Some, IfOk, IsTrue, OnOk, IfSome};
ghost use Rattle.serial_orders.specs.Orders.{IsReduced, IsUpTo};
ghost use Rattle.serial_orders.specs.Traces.{trace_depends, SeesEarlier};
ghost use Rattle.serial_orders.specs.Reduced.{AddsPairs, RiseFrom, AreWithin, AllRiseWithin};
ghost use Rattle.serial_orders.specs.Reduced.{numbers_at, successive_from, successive_pairs};
ghost use Rattle.serial_orders.specs.Reduced.{writers_pairs, seen_pairs, missed_pairs, reader_pairs};
ghost use Rattle.serial_orders.specs.Reduced.{sight_pairs, region_pairs, sights_pairs};
ghost use Rattle.serial_orders.specs.Reduced.{readers_pairs};
ghost use Rattle.serial_orders.specs.Precedence.{precedes};

use crate::precedence::Precedence;
use crate::trace::{Sight, Trace, region_takes_in};
use crate::writers::{Writers, count_seen, first_missed, last_seen};
use prog_tree::{Cell, Region, RisingCells};
use std::alloc::{AllocError, Global};

// Puts a number and each of the next before the one behind it.
fn add_successive_from(
    precedence: &mut Precedence,
    first: usize,
    rest: &[usize],
) -> Result<(), AllocError>
    requires first { IsUpTo (length precedence.old) first }
    requires rest { AreWithin (length precedence.old) rest.now }
    ensures { OnOk result
        (AddsPairs (successive_from first rest.now) precedence.old precedence.new) }
{
    let mut last = first;
    for number in rest {
        precedence.add(last, *number)?;
        last = *number;
    }
    Ok(())
}

// Puts each number before the next.
fn add_successive(precedence: &mut Precedence, numbers: &[usize]) -> Result<(), AllocError>
    requires { AreWithin (length precedence.old) numbers.now }
    ensures { OnOk result (AddsPairs (successive_pairs numbers.now) precedence.old precedence.new) }
{
    let Some((first, rest)) = numbers.split_first() else {
        return Ok(());
    };
    add_successive_from(precedence, *first, rest)
}

// Puts each writer of a cell before the next writer of it.
fn add_writers(precedence: &mut Precedence, writers: &Writers) -> Result<(), AllocError>
    requires { AllRiseWithin (length precedence.old) writers.now }
    ensures { OnOk result (AddsPairs (writers_pairs writers.now) precedence.old precedence.new) }
{
    for (_, numbers) in writers.cells.iter() {
        add_successive(precedence, numbers.as_slice())?;
    }
    Ok(())
}

// Puts the last writer that a reader saw, if there is one, before it.
fn add_seen(
    precedence: &mut Precedence,
    reader: usize,
    writer: Option<usize>,
) -> Result<(), AllocError>
    requires reader { IsUpTo (length precedence.old) reader }
    requires writer { IfSome writer (IsUpTo (length precedence.old)) }
    ensures { OnOk result (AddsPairs (seen_pairs reader writer) precedence.old precedence.new) }
{
    if let Some(writer) = writer {
        precedence.add(writer, reader)?;
    }
    Ok(())
}

// Puts a reader before the first writer that it missed, if there is one and it is another commit.
fn add_missed(
    precedence: &mut Precedence,
    reader: usize,
    writer: Option<usize>,
) -> Result<(), AllocError>
    requires reader { IsUpTo (length precedence.old) reader }
    requires writer { IfSome writer (IsUpTo (length precedence.old)) }
    ensures { OnOk result (AddsPairs (missed_pairs reader writer) precedence.old precedence.new) }
{
    let Some(writer) = writer else {
        return Ok(());
    };
    if writer != reader {
        precedence.add(reader, writer)?;
    }
    Ok(())
}

// Adds what a look at a cell with these writers says of its reader.
fn add_reader(
    precedence: &mut Precedence,
    reader: usize,
    start: u64,
    writers: &[usize],
) -> Result<(), AllocError>
    requires reader { IsUpTo (length precedence.old) reader }
    requires rise { RiseFrom 0 writers.now }
    requires within { AreWithin (length precedence.old) writers.now }
    ensures { OnOk result
        (AddsPairs (reader_pairs reader start writers.now) precedence.old precedence.new) }
{
    let seen = count_seen(writers, start);
    add_seen(precedence, reader, last_seen(writers, seen))?;
    add_missed(precedence, reader, first_missed(writers, seen))
}

// Adds what a look at a cell says of its reader.
fn add_cell(
    precedence: &mut Precedence,
    reader: usize,
    start: u64,
    cell: &Cell,
    writers: &Writers,
) -> Result<(), AllocError>
    requires reader { IsUpTo (length precedence.old) reader }
    requires within { AllRiseWithin (length precedence.old) writers.now }
    ensures { OnOk result (AddsPairs (reader_pairs reader start (numbers_at writers.now cell.now))
        precedence.old precedence.new) }
{
    if let Some(numbers) = writers.cells.get(cell) {
        add_reader(precedence, reader, start, numbers.as_slice())?;
    }
    Ok(())
}

// Adds what a look at a region says of its reader.
fn add_region(
    precedence: &mut Precedence,
    reader: usize,
    start: u64,
    region: &Region,
    own: &RisingCells,
    writers: &Writers,
) -> Result<(), AllocError>
    requires reader { IsUpTo (length precedence.old) reader }
    requires within { AllRiseWithin (length precedence.old) writers.now }
    ensures { OnOk result (AddsPairs (region_pairs reader start region.now own.now writers.now)
        precedence.old precedence.new) }
{
    let Some((low, high)) = region.corners() else {
        return Ok(());
    };
    for (cell, numbers) in writers.cells.range(low..=high) {
        if region_takes_in(region, own, cell) {
            add_reader(precedence, reader, start, numbers.as_slice())?;
        }
    }
    Ok(())
}

// Adds what a look says of its reader.
fn add_sight(
    precedence: &mut Precedence,
    reader: usize,
    start: u64,
    sight: &Sight,
    writers: &Writers,
) -> Result<(), AllocError>
    requires reader { IsUpTo (length precedence.old) reader }
    requires within { AllRiseWithin (length precedence.old) writers.now }
    ensures { OnOk result
        (AddsPairs (sight_pairs reader start writers.now sight.now) precedence.old precedence.new) }
{
    match sight {
        Sight::One(cell) => add_cell(precedence, reader, start, cell, writers)?,
        Sight::Range { region, own } => {
            add_region(precedence, reader, start, region.get(), own, writers)?
        }
    }
    Ok(())
}

// Whether the first of some sights is this one.
fn begins_with(sights: &[Sight], sight: &Sight) -> bool
    ensures { IsTrue result ↔ (slice_get sights.now 0 ≡ Some sight.now) }
{
    sights.first().is_some_and(|first| first.is_same(sight))
}

// Adds what the looks of a commit say of it. A look that is at once repeated says nothing more.
fn add_sights(
    precedence: &mut Precedence,
    reader: usize,
    start: u64,
    sights: &[Sight],
    writers: &Writers,
) -> Result<(), AllocError>
    requires reader { IsUpTo (length precedence.old) reader }
    requires within { AllRiseWithin (length precedence.old) writers.now }
    ensures { OnOk result (AddsPairs
        (sights_pairs reader start writers.now sights.now) precedence.old precedence.new) }
{
    for (index, sight) in sights.iter().enumerate() {
        if !begins_with(&sights[index + 1..], sight) {
            add_sight(precedence, reader, start, sight, writers)?;
        }
    }
    Ok(())
}

// Adds what the looks of all commits say.
fn add_readers(
    precedence: &mut Precedence,
    traces: &[Trace],
    writers: &Writers,
) -> Result<(), AllocError>
    requires commits { length precedence.old ≡ length traces.now }
    requires within { AllRiseWithin (length precedence.old) writers.now }
    ensures { OnOk result
        (AddsPairs (readers_pairs writers.now 1 traces.now) precedence.old precedence.new) }
{
    for (index, trace) in traces.iter().enumerate() {
        add_sights(
            precedence,
            index + 1,
            trace.start,
            trace.looked.as_slice(),
            writers,
        )?;
    }
    Ok(())
}

/// What has to stand before what by what the commits looked at and changed, in few pairs, through
/// which the others follow.
pub fn reduced_precedence(alloc: Global, traces: &[Trace]) -> Result<Precedence, AllocError>
    requires { SeesEarlier traces.now }
    ensures commits { IfOk result (λ precedence. length precedence ≡ length traces.now) }
    ensures reduced { IfOk result (λ precedence.
        IsReduced (length traces.now) (precedes precedence) (trace_depends traces.now)) }
{
    let writers = Writers::of(alloc, traces)?;
    let mut precedence = Precedence::new(alloc, traces.len())?;
    add_writers(&mut precedence, &writers)?;
    add_readers(&mut precedence, traces, &writers)?;
    Ok(precedence)
}
