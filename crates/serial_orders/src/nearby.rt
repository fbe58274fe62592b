//! The least order of the commits, by tests of those that are near each other.

ghost use Rattle.std.specs.Prelude.{◌≡◌, ◌<◌, ◌≤◌, ◌+◌, ◌↔◌, true, false, length, Some, IfOk};
ghost use Rattle.std.specs.Prelude.{IfSome, IsTrue};
ghost use Rattle.serial_orders.specs.Horizons.{AreHorizons};
ghost use Rattle.serial_orders.specs.Late.{first_tested, AreNextLate};
ghost use Rattle.serial_orders.specs.Nearby.{is_marked, IsMarkedBelow, IsFreeTest, IsFirstFree};
ghost use Rattle.serial_orders.specs.Nearby.{IsTestedBelow, HoldsBack, AreHolders, WaitsFor};
ghost use Rattle.serial_orders.specs.Orders.{least_order, IsUpTo};
ghost use Rattle.serial_orders.specs.Traces.{SeesEarlier, trace_depends};

use crate::dependency::depends;
use crate::horizons::{horizons, steps};
use crate::late::next_late;
use crate::trace::{Sight, Trace};
use std::alloc::{AllocError, Global};

// How many steps the tests may take for each look at a region. When the order is found by pairs,
// such a look takes up to two pairs for each written cell in the region, and any other look two.
const STEPS_OF_A_REGION: u128 = 1024;

// How many steps the tests may take for each commit besides: most wait for few of those near them.
const STEPS_OF_A_COMMIT: u128 = 96;

// The steps of so many places of the order are there before the first, for commits that wait for
// more.
const PLACES_AHEAD: u128 = 64;

/// What a commit that is not placed waits for.
#[derive(Clone, Copy, Debug)]
pub enum Waiting {
    /// This one, which is not placed either, has to stand before it.
    For(usize),
    /// All that have to stand before it are placed.
    Over,
    /// The steps did not last for the tests.
    Unknown,
}

// How many of some looks are at regions.
fn count_regions(looked: &[Sight]) -> usize {
    looked
        .iter()
        .filter(|sight| matches!(sight, Sight::Range { .. }))
        .count()
}

// How many steps the tests may take for each place of the order.
fn steps_of_a_place(traces: &[Trace]) -> u128 {
    let mut regions: u128 = 0;
    for trace in traces {
        regions = regions.saturating_add(count_regions(trace.looked.as_slice()) as u128);
    }
    let commits = (traces.len() as u128).max(1);
    STEPS_OF_A_COMMIT.saturating_add(regions.saturating_mul(STEPS_OF_A_REGION) / commits)
}

// Spends some steps, if so many are left.
fn spend(left: &mut u128, steps: u128) -> bool
    ensures enough { IsTrue result ↔ (steps ≤ left.old) }
    ensures left { result ≡ true → left.new + steps ≡ left.old }
{
    if *left < steps {
        return false;
    }
    *left -= steps;
    true
}

// The first commit from one on that may have to stand before another: of those that are not less,
// a late one.
fn first_tested(next_late: &[usize], from: usize, number: usize) -> usize
    requires { from < length next_late.now }
    ensures { result ≡ first_tested next_late.now from number }
{
    if from < number {
        return from;
    }
    next_late[from]
}

// Whether a commit is not placed and has to stand before another. None where the steps do not last.
fn holds_back(
    traces: &[Trace],
    placed: &[bool],
    other: usize,
    number: usize,
    left: &mut u128,
) -> Option<bool>
    requires marks { length placed.now ≡ length traces.now + 1 }
    requires other { IsUpTo (length traces.now) other }
    requires number { IsUpTo (length traces.now) number }
    ensures { IfSome result (λ holds. IsTrue holds ↔ HoldsBack traces.now placed.now other number) }
{
    if !spend(left, 1) {
        return None;
    }
    if placed[other] {
        return Some(false);
    }
    if !spend(left, steps(traces, other, number)) {
        return None;
    }
    Some(depends(traces, other, number))
}

// What a commit waits for, by tests of those from one up to its horizon that may have to stand
// before it.
fn waiting_of(
    traces: &[Trace],
    horizons: &[usize],
    next_late: &[usize],
    placed: &[bool],
    number: usize,
    from: usize,
    left: &mut u128,
) -> Waiting
    requires horizons { AreHorizons traces.now horizons.now }
    requires late { AreNextLate traces.now next_late.now }
    requires marks { length placed.now ≡ length traces.now + 1 }
    requires number { IsUpTo (length traces.now) number }
    requires from { IsUpTo (length traces.now + 1) from }
    requires tested { IsTestedBelow traces.now placed.now number from }
    ensures { WaitsFor traces.now placed.now number result }
{
    let mut other = first_tested(next_late, from, number);
    while other <= horizons[number] {
        let Some(holds) = holds_back(traces, placed, other, number, left) else {
            return Waiting::Unknown;
        };
        if holds {
            return Waiting::For(other);
        }
        other = first_tested(next_late, other + 1, number);
    }
    Waiting::Over
}

// Whether a commit is placed, or its holder is known and is not placed.
fn is_passed_over(traces: &[Trace], placed: &[bool], holders: &[usize], number: usize) -> bool
    requires marks { length placed.now ≡ length traces.now + 1 }
    requires holders { AreHolders traces.now placed.now holders.now }
    requires number { IsUpTo (length traces.now) number }
    ensures passed { result ≡ true → IsFreeTest traces.now placed.now number false }
    ensures unplaced { result ≡ false → is_marked placed.now number ≡ false }
{
    let holder = holders[number];
    placed[number] || (holder > 0 && !placed[holder])
}

// The least number that is free; none where there is none, or the steps do not last.
fn first_free(
    traces: &[Trace],
    horizons: &[usize],
    next_late: &[usize],
    placed: &[bool],
    from: usize,
    holders: &mut [usize],
    left: &mut u128,
) -> Option<usize>
    requires horizons { AreHorizons traces.now horizons.now }
    requires late { AreNextLate traces.now next_late.now }
    requires marks { length placed.now ≡ length traces.now + 1 }
    requires from { IsMarkedBelow placed.now from }
    requires holders { AreHolders traces.now placed.now holders.old }
    ensures within { IfSome result (IsUpTo (length traces.now)) }
    ensures first { IfSome result (IsFirstFree traces.now placed.now) }
    ensures holders { AreHolders traces.now placed.now holders.new }
{
    for number in from..placed.len() {
        if !spend(left, 1) {
            return None;
        }
        if is_passed_over(traces, placed, holders, number) {
            continue;
        }
        let tested = from.max(holders[number]);
        match waiting_of(traces, horizons, next_late, placed, number, tested, left) {
            Waiting::For(holder) => holders[number] = holder,
            Waiting::Over => return Some(number),
            Waiting::Unknown => return None,
        }
    }
    None
}

// The least number from one on that is not placed, or how many marks there are.
fn first_unplaced(placed: &[bool], from: usize) -> usize
    requires { IsMarkedBelow placed.now from }
    ensures { IsMarkedBelow placed.now result }
{
    for number in from..placed.len() {
        if !placed[number] {
            return number;
        }
    }
    from.max(placed.len())
}

/// The least order of the commits, found by tests of commits that are near each other. None where
/// that takes too many steps, or where there is no order.
pub fn nearby_order(alloc: Global, traces: &[Trace]) -> Result<Option<Vec<usize>>, AllocError>
    requires { SeesEarlier traces.now }
    ensures { IfOk result (λ found. IfSome found (λ order.
        least_order (trace_depends traces.now) (length traces.now) ≡ Some order.items)) }
{
    let share = steps_of_a_place(traces);
    let mut left = share.saturating_mul(PLACES_AHEAD);
    let next_late = next_late(alloc, traces)?;
    let horizons = horizons(alloc, traces)?;
    let mut placed = vec![in alloc; false; traces.len() + 1]?;
    let mut holders = vec![in alloc; 0; traces.len() + 1]?;
    let mut order = Vec::new(alloc);
    let mut from = 1;
    for _place in 0..traces.len() {
        left = left.saturating_add(share);
        let Some(number) = first_free(
            traces,
            &horizons,
            &next_late,
            &placed,
            from,
            &mut holders,
            &mut left,
        ) else {
            return Ok(None);
        };
        placed[number] = true;
        order.push(number)?;
        from = first_unplaced(&placed, from);
    }
    Ok(Some(order))
}
