//! What a command keeps, to say something of it behind its answer.

use job_list::{Job, JobOutcome};
use prog_check::ProgramSet;
use prog_tree::Sequence;
use run_words::Refusals;
use si_repair::{Finding, Plan};
use std::alloc::Global;

/// A set as its plan repairs it, and that plan.
#[derive(Drop)]
pub struct PlannedRepair {
    pub plan: Plan,
    pub repaired: ProgramSet,
}

/// The input, and what a command found of it.
#[derive(Drop)]
pub struct Kept {
    pub input: Vec<u8>,
    /// The set, where the command was through with it.
    pub set: Option<ProgramSet>,
    /// What an analysis found of the set, where one was made.
    pub found: Option<Finding>,
    /// The repair of the set, where one was made.
    pub repair: Option<PlannedRepair>,
    /// The cycle in which the commits of a run or an audit end, in words; none where they have a
    /// serial order, and where memory ran out for the words.
    pub cycle: Option<String>,
    /// The lines of a script that do nothing.
    pub refusals: Refusals,
    /// The jobs that were done.
    pub jobs: Sequence<Job>,
    /// What came of them.
    pub outcomes: Sequence<JobOutcome>,
}

impl Kept {
    pub fn new(alloc: Global) -> Self {
        Kept {
            input: Vec::new(alloc),
            set: None,
            found: None,
            repair: None,
            cycle: None,
            refusals: Refusals::new(alloc),
            jobs: Sequence::new(alloc),
            outcomes: Sequence::new(alloc),
        }
    }
}
