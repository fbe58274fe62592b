//! What came of jobs, as plain data.

use history_book::{BeginFault, Clash};
use prog_tree::Cause;
use si_workers::{JobEnd, JobOutcome, Way};
use std::alloc::Global;
use std::process::Abort;

/// How a job ended.
#[derive(Clone, Copy, PartialEq, Eq)]
pub enum Came {
    /// With the number of the commit, and its first reply.
    Committed(u64, Option<i64>),
    Aborted(Cause),
    Clashed(Clash),
    Refused(BeginFault),
}

fn end_of(outcome: &JobOutcome) -> Came {
    match &outcome.job_end {
        JobEnd::Committed { number, replies } => {
            Came::Committed(*number, replies.as_slice().first().copied())
        }
        JobEnd::Aborted(cause) => Came::Aborted(*cause),
        JobEnd::Clashed(clash) => Came::Clashed(*clash),
        JobEnd::Refused(fault) => Came::Refused(*fault),
    }
}

/// Whether a job ended in each of the ways.
fn ways(end: &JobEnd) -> [bool; 4] {
    [
        end.is_in(Way::Committed),
        end.is_in(Way::Aborted),
        end.is_in(Way::Clashed),
        end.is_in(Way::Refused),
    ]
}

fn wanted_ways(came: &Came) -> [bool; 4] {
    match came {
        Came::Committed(_, _) => [true, false, false, false],
        Came::Aborted(_) => [false, true, false, false],
        Came::Clashed(_) => [false, false, true, false],
        Came::Refused(_) => [false, false, false, true],
    }
}

/// Each job has to have ended as wanted, with so many clashes.
pub fn check_outcomes(rt: &impl Abort, outcomes: &[JobOutcome], wanted: &[(Came, u64)]) {
    assert!(rt; outcomes.len() == wanted.len());
    for (outcome, wanted) in outcomes.iter().zip(wanted) {
        assert!(rt; (end_of(outcome), outcome.clashes) == *wanted);
        assert!(rt; ways(&outcome.job_end) == wanted_ways(&wanted.0));
    }
}

/// The numbers of the commits, the least first.
pub fn commits(rt: &impl Abort, alloc: Global, outcomes: &[JobOutcome]) -> Vec<u64> {
    let mut numbers = Vec::new(alloc);
    for outcome in outcomes {
        if let JobEnd::Committed { number, .. } = &outcome.job_end {
            numbers.push(*number).expect(rt, "memory");
        }
    }
    numbers.sort().expect(rt, "memory");
    numbers
}
