//! Why one commit has to stand before another.

ghost use Rattle.std.specs.Prelude.{◌≡◌, if◌then◌else◌, Some, None, length};
ghost use Rattle.serial_orders.specs.Orders.{IsUpTo};
ghost use Rattle.serial_orders.specs.Reasons.{by_change, by_look, changed_before, change_reason};
ghost use Rattle.serial_orders.specs.Reasons.{missed_at, missed_by, told_reason};
ghost use Rattle.serial_orders.specs.Traces.{trace_at};

use crate::trace::{Sight, Trace, trace_at};
use prog_tree::{Cell, Region};

/// Why the first of two commits has to stand before the second.
#[derive(Clone, Copy, Debug, PartialEq, Eq)]
pub enum OrderReason {
    /// Both changed the cell, in this order.
    Both(Cell),
    /// The first changed the cell, and the second looked at it and saw the change.
    Saw(Cell),
    /// The first looked at the cell, and missed the change of the second.
    Missed(Cell),
    /// The first looked at a region with the cell, and missed the change of the second.
    MissedIn(Region, Cell),
}

// Why the first stands before the second, by a cell that it changed.
fn change_reason_at(
    traces: &[Trace],
    first: usize,
    second: usize,
    cell: &Cell,
) -> Option<OrderReason>
    requires first { IsUpTo (length traces.now) first }
    requires second { IsUpTo (length traces.now) second }
    ensures { result ≡ if changed_before first second (trace_at traces.now second) cell.now
        then Some (change_reason first second (trace_at traces.now second) cell.now) else None }
{
    let after = trace_at(traces, second);
    if first < second && after.changed_at(cell) {
        return Some(OrderReason::Both(*cell));
    }
    if first as u64 <= after.start && after.looked_at(cell) {
        return Some(OrderReason::Saw(*cell));
    }
    None
}

// Why the first stands before the second, by the first such cell of those that it changed.
fn first_change_reason(traces: &[Trace], first: usize, second: usize) -> Option<OrderReason>
    requires first { IsUpTo (length traces.now) first }
    requires second { IsUpTo (length traces.now) second }
    ensures { result
        ≡ by_change first second (trace_at traces.now first) (trace_at traces.now second) }
{
    let cells = trace_at(traces, first).changed.as_slice();
    for cell in cells {
        let reason = change_reason_at(traces, first, second, cell);
        if reason.is_some() {
            return reason;
        }
    }
    None
}

// What a look that takes in a cell missed there.
fn missed_reason(sight: &Sight, cell: &Cell) -> OrderReason
    ensures { result ≡ missed_by sight.now cell.now }
{
    match sight {
        Sight::One(_) => OrderReason::Missed(*cell),
        Sight::Range { region, .. } => OrderReason::MissedIn(*region.get(), *cell),
    }
}

// What the first look of a commit that takes in a cell missed there.
fn first_missed_reason(trace: &Trace, cell: &Cell) -> Option<OrderReason>
    ensures { result ≡ missed_at trace.now cell.now }
{
    let sights = trace.looked.as_slice();
    for sight in sights {
        if sight.takes_in(cell) {
            return Some(missed_reason(sight, cell));
        }
    }
    None
}

// Why the first stands before the second, by the first such cell of those that the second changed.
fn first_look_reason(traces: &[Trace], first: usize, second: usize) -> Option<OrderReason>
    requires first { IsUpTo (length traces.now) first }
    requires second { IsUpTo (length traces.now) second }
    ensures { result ≡ by_look second (trace_at traces.now first) (trace_at traces.now second) }
{
    let before = trace_at(traces, first);
    if before.start >= second as u64 {
        return None;
    }
    let cells = trace_at(traces, second).changed.as_slice();
    for cell in cells {
        let reason = first_missed_reason(before, cell);
        if reason.is_some() {
            return reason;
        }
    }
    None
}

/// Why one commit has to stand before another; none where it has not.
pub fn reason_between(traces: &[Trace], first: usize, second: usize) -> Option<OrderReason>
    requires first { IsUpTo (length traces.now) first }
    requires second { IsUpTo (length traces.now) second }
    ensures { result ≡ told_reason traces.now first second }
{
    if first == second {
        return None;
    }
    let changed = first_change_reason(traces, first, second);
    if changed.is_some() {
        return changed;
    }
    first_look_reason(traces, first, second)
}
