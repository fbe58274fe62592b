//! Why a set is not repaired, in words.
ghost use Rattle.std.specs.Prelude.{◌≡◌, IfNone, IfOk, IfSome, string_bytes};
ghost use Rattle.prog_tree.specs.Tree.{draft_tree};
ghost use Rattle.analysis_words.specs.Repairs.{SaysObstacle, SaysStop, limits_text};
ghost use Rattle.analysis_words.specs.Repairs.{obstacle_reason, obstacle_verb};
ghost use Rattle.si_repair.specs.declared.repairs.fault.RepairFault.TheVariants as f;

use crate::looks::reason_words;
use crate::pairs::pair_sentence;
use crate::shown_set::ShownSet;
use prog_check::{MAX_ACCESSES, MAX_STATEMENTS, MAX_TABLES, ProgramSet};
use si_repair::{Obstacle, Pair, RepairFault, hindered_question};
use std::alloc::{AllocError, Global};

// What the first program of a pair does, before the name of the second.
fn obstacle_verb(obstacle: Obstacle) -> &'static str
    ensures { result.now ≡ obstacle_verb obstacle }
{
    match obstacle {
        Obstacle::RangeRead => "looks at a range that can be changed by",
        Obstacle::UnknownKey | Obstacle::BodyRead => "looks at a row that can be changed by",
    }
}

// Why no `keep` covers that look.
fn obstacle_reason(obstacle: Obstacle) -> &'static str
    ensures { result.now ≡ obstacle_reason obstacle }
{
    match obstacle {
        Obstacle::RangeRead => "; no `keep` covers a range",
        Obstacle::UnknownKey => ", and no parameters and numbers tell its key",
        Obstacle::BodyRead => {
            ", and one of the two stands in the body of an `each`, \
            where a `keep` may run for many rows or for none and covers nothing"
        }
    }
}

// The first look of a pair that no `keep` covers.
fn obstructed_look(
    alloc: Global,
    text: &[u8],
    set: &ProgramSet,
    pair: Pair,
    obstacle: Obstacle,
) -> Result<String, AllocError> {
    let whole = ShownSet::new(alloc, text, set)?;
    let shown = whole.shown();
    let found = hindered_question(alloc, set.draft(), shown.paths, pair, obstacle)?;
    reason_words(alloc, shown, found.as_ref())
}

// The pair that can't be promoted.
fn promotion_words(
    alloc: Global,
    text: &[u8],
    set: &ProgramSet,
    pair: Pair,
    obstacle: Obstacle,
) -> Result<String, AllocError>
    ensures { IfOk result (λ words.
        SaysObstacle (draft_tree set.now) obstacle pair (string_bytes words)) }
{
    let reason = obstacle_reason(obstacle);
    let rest = format!(in alloc; "{reason}: repair without `--promote`")?;
    let sentence = pair_sentence(alloc, set, pair, obstacle_verb(obstacle), &rest)?;
    let look = obstructed_look(alloc, text, set, pair, obstacle)?;
    format!(in alloc; "{sentence}{look}")
}

// The limits that a set may pass with the statements for its pairs.
fn limits_text(alloc: Global) -> Result<String, AllocError>
    ensures { IfOk result (λ text. string_bytes text ≡ limits_text) }
{
    format!(in alloc;
        "{MAX_TABLES} tables, {MAX_STATEMENTS} statements of a program, {MAX_ACCESSES} accesses on a way through it"
    )
}

// The pair with whose statements the set is above a limit.
fn limit_words(alloc: Global, set: &ProgramSet, pair: Pair) -> Result<String, AllocError>
    ensures { IfOk result (λ words. SaysStop (draft_tree set.now) (f.TooMany pair)
        (string_bytes words)) }
{
    let limits = limits_text(alloc)?;
    let rest = format!(in alloc;
        ", and with the statements for that the set is above a limit: {limits}; have fewer programs, or merge some"
    )?;
    pair_sentence(alloc, set, pair, "has to be kept apart from", &rest)
}

/// Why a plan is not carried out, by the two programs of the pair that stops it, and what to do.
pub fn repair_fault_words(
    alloc: Global,
    text: &[u8],
    set: &ProgramSet,
    fault: RepairFault,
) -> Result<Option<String>, AllocError>
    ensures said { IfOk result (λ said. IfSome said (λ words.
        SaysStop (draft_tree set.now) fault (string_bytes words))) }
    ensures none { IfOk result (λ said. IfNone said (fault ≡ f.Memory)) }
{
    let words = match fault {
        RepairFault::RangeRead(pair) => {
            promotion_words(alloc, text, set, pair, Obstacle::RangeRead)?
        }
        RepairFault::UnknownKey(pair) => {
            promotion_words(alloc, text, set, pair, Obstacle::UnknownKey)?
        }
        RepairFault::BodyRead(pair) => {
            promotion_words(alloc, text, set, pair, Obstacle::BodyRead)?
        }
        RepairFault::TooMany(pair) => limit_words(alloc, set, pair)?,
        RepairFault::Memory => return Ok(None),
    };
    Ok(Some(words))
}
