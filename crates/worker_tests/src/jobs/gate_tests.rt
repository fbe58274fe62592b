//! Two workers really at once: a gate lets each job go on only once another has come so far.

use crate::jobs::lists::{Call, run_calls};
use crate::jobs::meeting::{Hold, Meeting};
use crate::jobs::outcomes::{Came, check_outcomes};
use crate::jobs::overtaking::Overtaking;
use crate::sets::{LOOK, REGISTERS, SET, robust};
use history_book::Clash;
use prog_tree::Cell;
use robust_cert::RobustSet;
use si_workers::Moment;
use std::alloc::Global;
use std::process::Abort;
use std::sync::Wait;
use std::test::Fail;
use std::thread::Threads;
use std::time::Clock;

/// Job 1 begins behind job 0, which goes on only once job 1 has ended.
const CROSSED: [Hold; 2] = [
    ((1, Moment::Begun), (0, Moment::Begun)),
    ((0, Moment::Begun), (1, Moment::Finished)),
];

// Runs jobs on two workers, crossed; each has to end as wanted.
fn cross<R: Threads + Wait + Clock + Abort + Sync>(
    rt: &R,
    alloc: Global,
    set: &RobustSet,
    calls: &[Call],
    wanted: &[(Came, u64)],
) {
    let gate = Meeting::new(rt, &CROSSED);
    let finished = run_calls(rt, alloc, set, &[], calls, 2, &gate);
    assert!(rt; gate.was_kept());
    check_outcomes(rt, finished.outcomes.as_slice(), wanted);
    drop(finished);
}

const CELL: Cell = Cell {
    table: 0,
    first: 1,
    second: 0,
};

const CLASH: Clash = Clash {
    cell: CELL,
    number: 1,
};

/// Both jobs, and how they have to end.
type Case = ([Call; 2], [(Came, u64); 2]);

const CASES: [Case; 3] = [
    // a look sees nothing of a set beside it
    (
        [(LOOK, &[1], 0), (SET, &[1, 5], 0)],
        [
            (Came::Committed(2, Some(-1)), 0),
            (Came::Committed(1, None), 0),
        ],
    ),
    // a set clashes with a set beside it
    (
        [(SET, &[1, 6], 0), (SET, &[1, 5], 0)],
        [(Came::Clashed(CLASH), 1), (Came::Committed(1, None), 0)],
    ),
    // a clashed job is begun anew
    (
        [(SET, &[1, 6], 1), (SET, &[1, 5], 0)],
        [(Came::Committed(2, None), 1), (Came::Committed(1, None), 0)],
    ),
];

#[test]
fn jobs_at_once_look_clash_and_are_begun_anew(rt: HostRuntime) -> Result<(), Fail> {
    let set = robust(rt.alloc(), &REGISTERS)?;
    for (calls, wanted) in &CASES {
        cross(&rt, rt.alloc(), &set, calls, wanted);
    }
    drop(set);
    Ok(())
}

/// Job 0 may be begun anew once, and a commit goes before each of its tries.
const OVERTAKEN: [Call; 3] = [(SET, &[1, 6], 1), (SET, &[1, 5], 0), (SET, &[1, 7], 0)];

const SECOND_CLASH: Clash = Clash {
    cell: CELL,
    number: 2,
};

const OVERTAKEN_ENDS: [(Came, u64); 3] = [
    (Came::Clashed(SECOND_CLASH), 2),
    (Came::Committed(1, None), 0),
    (Came::Committed(2, None), 0),
];

fn overtake<R: Threads + Wait + Clock + Abort + Sync>(rt: &R, alloc: Global, set: &RobustSet) {
    let gate = Overtaking::new(rt);
    let finished = run_calls(rt, alloc, set, &[], &OVERTAKEN, 2, &gate);
    assert!(rt; gate.was_kept(2));
    check_outcomes(rt, finished.outcomes.as_slice(), &OVERTAKEN_ENDS);
    drop(finished);
}

#[test]
fn a_job_is_told_the_clash_of_its_last_try(rt: HostRuntime) -> Result<(), Fail> {
    let set = robust(rt.alloc(), &REGISTERS)?;
    overtake(&rt, rt.alloc(), &set);
    drop(set);
    Ok(())
}
