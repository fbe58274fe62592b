//! How a whole set is repaired.
ghost use Rattle.std.specs.Prelude.{◌≡◌, ◌≢◌, ◌↔◌, false, IfOk, IsTrue};
ghost use Rattle.prog_tree.specs.Tree.{draft_tree};
ghost use Rattle.analysis_words.specs.Ways.{ways_text, IsRepairedByKeeps, IsRepairedByTables};
ghost use Rattle.analysis_words.specs.Ways.{IsWaysText};
ghost use Rattle.si_repair.specs.declared.repairs.fault.RepairFault.TheVariants as f;

use prog_check::ProgramSet;
use si_repair::{Plan, RepairFault, materialise, promote};
use std::alloc::{AllocError, Global};

const UNTRIED: &str =
    "`sirob repair` does it, unless the set gets above a limit: by a row of a new table that both `keep`\n";

// That a plan is not carried out, unless memory ran out for it.
fn stopped_by(fault: RepairFault) -> Result<bool, AllocError>
    ensures { IfOk result (λ yes. (yes ≡ false) × (fault ≢ f.Memory)) }
{
    match fault {
        RepairFault::RangeRead(_)
        | RepairFault::UnknownKey(_)
        | RepairFault::BodyRead(_)
        | RepairFault::TooMany(_) => Ok(false),
        RepairFault::Memory => Err(AllocError),
    }
}

// Whether a plan is carried out by new tables.
fn is_repaired_by_tables(alloc: Global, set: &ProgramSet, plan: &Plan) -> Result<bool, AllocError>
    ensures { IfOk result
        (λ yes. IsTrue yes ↔ IsRepairedByTables (draft_tree set.now) plan.now.pairs) }
{
    match materialise(alloc, set, plan) {
        Ok(_) => Ok(true),
        Err(fault) => stopped_by(fault),
    }
}

// Whether a plan is carried out by keeps behind looks.
fn is_repaired_by_keeps(alloc: Global, set: &ProgramSet, plan: &Plan) -> Result<bool, AllocError>
    ensures { IfOk result
        (λ yes. IsTrue yes ↔ IsRepairedByKeeps (draft_tree set.now) plan.now.pairs) }
{
    match promote(alloc, set, plan) {
        Ok(_) => Ok(true),
        Err(fault) => stopped_by(fault),
    }
}

// Which repairs do it.
fn ways_text(by_tables: bool, by_keeps: bool) -> &'static str
    ensures { result.now ≡ ways_text by_tables by_keeps }
{
    match (by_tables, by_keeps) {
        (true, true) =>
            "`sirob repair` does it: by a row of a new table that both `keep`, or with `--promote` by a `keep` behind each look\n",
        (true, false) =>
            "`sirob repair` does it, by a row of a new table that both `keep`; with `--promote` it would be refused\n",
        (false, true) =>
            "`sirob repair --promote` does it, by a `keep` behind each look; with new tables the set gets above a limit\n",
        (false, false) =>
            "`sirob repair` would be refused, since the set gets above a limit: have fewer programs, or merge some\n",
    }
}

/// Which repairs carry a plan out; of an empty one nothing is known.
pub fn ways_of(alloc: Global, set: &ProgramSet, plan: &Plan) -> Result<&'static str, AllocError>
    ensures { IfOk result
        (λ text. IsWaysText (draft_tree set.now) plan.now.pairs text.now) }
{
    if plan.pairs.as_slice().is_empty() {
        return Ok(UNTRIED);
    }
    let by_tables = is_repaired_by_tables(alloc, set, plan)?;
    let by_keeps = is_repaired_by_keeps(alloc, set, plan)?;
    Ok(ways_text(by_tables, by_keeps))
}
