//! Which commits are near each other: how many steps a test of two takes, and for each commit the
//! last that can have to stand before it.

ghost use Rattle.std.specs.Prelude.{◌≡◌, ◌<◌, ◌^◌, length, IfOk};
ghost use Rattle.serial_orders.specs.Horizons.{pairs_between, AreHorizons, AreLastBegun, AreRaised};
ghost use Rattle.serial_orders.specs.Orders.{IsUpTo};
ghost use Rattle.serial_orders.specs.Traces.{trace_at, SeesEarlier};

use crate::trace::{Trace, trace_at};
use std::alloc::{AllocError, Global};

// How many cells a commit changed.
fn count_changed(trace: &Trace) -> u128
    ensures count { result ≡ length trace.now.changed }
    ensures small { result < 2 ^ 60 }
{
    trace.changed.as_slice().len() as u128
}

// How often a commit looked.
fn count_looked(trace: &Trace) -> u128
    ensures count { result ≡ length trace.now.looked }
    ensures small { result < 2 ^ 60 }
{
    trace.looked.as_slice().len() as u128
}

/// How many steps a test of two commits may take. A step compares a cell with a cell or a look; a
/// look at a region counts once, however many cells its instance had changed.
pub fn steps(traces: &[Trace], first: usize, second: usize) -> u128
    requires first { IsUpTo (length traces.now) first }
    requires second { IsUpTo (length traces.now) second }
    ensures count { result
        ≡ pairs_between (trace_at traces.now first) (trace_at traces.now second) }
    ensures small { result < 2 ^ 126 }
{
    let first = trace_at(traces, first);
    let second = trace_at(traces, second);
    let seen = count_changed(second) * count_looked(first);
    count_changed(first) * (count_changed(second) + count_looked(second)) + seen
}

// For each number from 0 on, the last commit whose snapshot ends right before it, or 0.
fn last_begun(alloc: Global, traces: &[Trace]) -> Result<Vec<usize>, AllocError>
    requires { SeesEarlier traces.now }
    ensures { IfOk result (λ last. AreLastBegun traces.now last.items) }
{
    let mut last = vec![in alloc; 0; traces.len() + 1]?;
    for (index, trace) in traces.iter().enumerate() {
        last[trace.start as usize + 1] = index + 1;
    }
    Ok(last)
}

// For each place the greatest of the numbers there and before, and of the place itself.
fn greatest_so_far(alloc: Global, numbers: &[usize]) -> Result<Vec<usize>, AllocError>
    ensures { IfOk result (λ raised. AreRaised numbers.now raised.items) }
{
    let mut raised = Vec::with_capacity(alloc, numbers.len())?;
    let mut greatest = 0;
    for (place, number) in numbers.iter().enumerate() {
        greatest = place.max(greatest).max(*number);
        raised.push(greatest)?;
    }
    Ok(raised)
}

/// For each number from 0 on, the last commit that can have to stand before it: the last that began
/// before it, or itself.
pub fn horizons(alloc: Global, traces: &[Trace]) -> Result<Vec<usize>, AllocError>
    requires { SeesEarlier traces.now }
    ensures { IfOk result (λ horizons. AreHorizons traces.now horizons.items) }
{
    let last = last_begun(alloc, traces)?;
    greatest_so_far(alloc, &last)
}
