//! Two workers inside a read of the book at once: a lock that one reader keeps from another fails.

use crate::jobs::lists::{Call, run_calls};
use crate::jobs::meeting::{Hold, Meeting};
use crate::jobs::outcomes::commits;
use crate::sets::{LOOK, OVERFLOW, REGISTERS, TOTAL, robust};
use robust_cert::RobustSet;
use si_workers::{Finished, Moment};
use std::alloc::Global;
use std::process::Abort;
use std::sync::Wait;
use std::test::Fail;
use std::thread::Threads;
use std::time::Clock;

/// Both begin before either reads, since a begin has the book alone; and each stays in its read
/// until the other is in its own.
const BESIDE: [Hold; 4] = [
    ((0, Moment::Begun), (1, Moment::Begun)),
    ((1, Moment::Begun), (0, Moment::Begun)),
    ((0, Moment::InRead), (1, Moment::InRead)),
    ((1, Moment::InRead), (0, Moment::InRead)),
];

fn check_committed(rt: &impl Abort, alloc: Global, finished: &Finished<'_>) {
    let numbers = commits(rt, alloc, finished.outcomes.as_slice());
    assert!(rt; numbers.as_slice() == [1, 2].as_slice());
    drop(numbers);
}

// Runs two jobs on two workers, side by side in their reads: both have to commit.
fn read_beside<R: Threads + Wait + Clock + Abort + Sync>(
    rt: &R,
    alloc: Global,
    set: &RobustSet,
    calls: &[Call],
) {
    let gate = Meeting::new(rt, &BESIDE);
    let finished = run_calls(rt, alloc, set, &[(1, 5), (2, 7)], calls, 2, &gate);
    assert!(rt; gate.was_kept());
    check_committed(rt, alloc, &finished);
    drop(finished);
}

#[test]
fn two_looks_are_in_the_book_at_once(rt: HostRuntime) -> Result<(), Fail> {
    let set = robust(rt.alloc(), &REGISTERS)?;
    let looks: [Call; 2] = [(LOOK, &[1], 0), (LOOK, &[2], 0)];
    read_beside(&rt, rt.alloc(), &set, &looks);
    drop(set);
    Ok(())
}

#[test]
fn two_sums_are_in_the_book_at_once(rt: HostRuntime) -> Result<(), Fail> {
    let set = robust(rt.alloc(), &OVERFLOW)?;
    let sums: [Call; 2] = [(TOTAL, &[], 0), (TOTAL, &[], 0)];
    read_beside(&rt, rt.alloc(), &set, &sums);
    drop(set);
    Ok(())
}
