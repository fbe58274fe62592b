//! Whether one commit has to stand before another: by the dependencies of the field, write-write,
//! write-read and read-write.

ghost use Rattle.std.specs.List.{list_any};
ghost use Rattle.std.specs.Prelude.{◌≡◌, length};
ghost use Rattle.serial_orders.specs.Orders.{IsUpTo};
ghost use Rattle.serial_orders.specs.Traces.{changed_at, looked_at, trace_depends};
ghost use Rattle.serial_orders.specs.Traces.{changes_again, misses_change, sees_change};

use crate::trace::{Trace, trace_at};
use prog_tree::Cell;

// Whether a commit changed one of some cells.
fn changed_one(trace: &Trace, cells: &[Cell]) -> bool
    ensures { result ≡ list_any (changed_at trace.now) cells.now }
{
    cells.iter().any(|cell| trace.changed_at(cell))
}

// Whether a commit looked at one of some cells.
fn looked_at_one(trace: &Trace, cells: &[Cell]) -> bool
    ensures { result ≡ list_any (looked_at trace.now) cells.now }
{
    cells.iter().any(|cell| trace.looked_at(cell))
}

// Whether both changed a cell, in this order.
fn changes_again(traces: &[Trace], first: usize, second: usize) -> bool
    requires first { IsUpTo (length traces.now) first }
    requires second { IsUpTo (length traces.now) second }
    ensures { result ≡ changes_again traces.now first second }
{
    let cells = trace_at(traces, first).changed.as_slice();
    first < second && changed_one(trace_at(traces, second), cells)
}

// Whether the second looked at a cell that the first changed, and saw the change.
fn sees_change(traces: &[Trace], first: usize, second: usize) -> bool
    requires first { IsUpTo (length traces.now) first }
    requires second { IsUpTo (length traces.now) second }
    ensures { result ≡ sees_change traces.now first second }
{
    let cells = trace_at(traces, first).changed.as_slice();
    let after = trace_at(traces, second);
    first as u64 <= after.start && looked_at_one(after, cells)
}

// Whether the first looked at a cell that the second changed, and missed the change.
fn misses_change(traces: &[Trace], first: usize, second: usize) -> bool
    requires first { IsUpTo (length traces.now) first }
    requires second { IsUpTo (length traces.now) second }
    ensures { result ≡ misses_change traces.now first second }
{
    let before = trace_at(traces, first);
    let cells = trace_at(traces, second).changed.as_slice();
    before.start < second as u64 && looked_at_one(before, cells)
}

/// Whether one commit has to stand before another.
pub fn depends(traces: &[Trace], first: usize, second: usize) -> bool
    requires first { IsUpTo (length traces.now) first }
    requires second { IsUpTo (length traces.now) second }
    ensures { result ≡ trace_depends traces.now first second }
{
    first != second
        && (changes_again(traces, first, second)
            || sees_change(traces, first, second)
            || misses_change(traces, first, second))
}
