//! What an analysis and the checker of certificates find, as it is said to people.

use crate::limits::MAX_PLANNED_NODES;
use analysis_words::refusal_words;
use dep_graph::Danger;
use prog_check::ProgramSet;
use prog_paths::{MAX_QUESTIONS, paths};
use prog_tree::Sequence;
use si_repair::{AnalyseFault, Plan, plan};
use std::alloc::{AllocError, Global};

/// Why a set is not analysed.
pub fn analysis_sentence(alloc: Global, fault: AnalyseFault) -> Result<Option<String>, AllocError> {
    let words = match fault {
        AnalyseFault::TooLarge => format!(in alloc;
            "more than {MAX_QUESTIONS} pairs of accesses would have to be compared: fewer programs, or fewer ways through them\n"
        )?,
        AnalyseFault::Memory => return Ok(None),
    };
    Ok(Some(words))
}

// The plan of a small set.
fn small_plan(alloc: Global, set: &ProgramSet) -> Option<Plan> {
    let nodes = paths(alloc, set).ok()?.len();
    if nodes > MAX_PLANNED_NODES {
        return None;
    }
    plan(alloc, set).ok()
}

// What a repair of a set keeps apart, where the set is small; else a plan without pairs.
fn known_plan(alloc: Global, set: &ProgramSet) -> Plan {
    match small_plan(alloc, set) {
        Some(plan) => plan,
        None => Plan {
            pairs: Sequence::new(alloc),
        },
    }
}

/// Why a set, whose text was read, is refused, by what an analysis found.
pub fn refusal_sentence(
    alloc: Global,
    text: &[u8],
    set: &ProgramSet,
    danger: &Danger,
) -> Result<Option<String>, AllocError> {
    let plan = known_plan(alloc, set);
    refusal_words(alloc, text, set, danger, &plan)
}
