//! Repairs by new tables: both programs of a pair keep one row of a table of their own.
ghost use Rattle.std.specs.Prelude.{◌≡◌, ◌+◌, ◌-◌, ◌<◌, List, [], ◌∷◌, ◌++◌, All, IfErr, IfOk};
ghost use Rattle.std.specs.Prelude.{IfSome, IfNone, OnOk, length, take};
ghost use Rattle.prog_tree.specs.Tree.{draft_tree};
ghost use Rattle.prog_check.specs.Paths.{paths_of};
ghost use Rattle.prog_check.specs.Sound.{IsSound};
ghost use Rattle.repair_laws.specs.Materialised.{params_of, HasKey, AreNewTables, materialised_by};
ghost use Rattle.repair_laws.specs.Materialised.{IsMaterialised};
ghost use Rattle.repair_laws.specs.Refusals.{StopsMaterialising};
ghost use Rattle.repair_laws.specs.declared.plan.Pair.{Pair as OfPrograms};
ghost use Rattle.si_repair.specs.Checking.{IsRefused};
ghost use Rattle.si_repair.specs.Repairing.{IsCarriedOut, IsRepairFault};
ghost use Rattle.si_repair.specs.declared.repairs.fault.RepairFault.TheVariants.{TooMany};

use crate::plans::Plan;
use crate::repairs::bisecting::{Firsts, most_that_fit};
use crate::repairs::checked::checked_set;
use crate::repairs::fault::RepairFault;
use crate::repairs::key::key_of;
use crate::repairs::names::free_name;
use prog_check::{MAX_TABLES, Path, ProgramSet};
use prog_paths::paths;
use prog_tree::Draft;
use repair_laws::{NewTable, Pair, materialised_draft};
use std::alloc::{AllocError, Global};

// How many parameters the program of a number has: none where there is no such program.
fn params_of(draft: &Draft, number: usize) -> usize
    ensures { result ≡ params_of (draft_tree draft.now) number }
{
    match draft.programs.get(number) {
        Some(program) => program.params.len(),
        None => 0,
    }
}

// Adds a pair with its own new name and its key.
fn push_new_table(
    alloc: Global,
    set: &ProgramSet,
    paths: &[Path],
    pair: Pair,
    made: &mut Vec<NewTable>,
) -> Result<(), AllocError>
    requires { paths.now ≡ paths_of (draft_tree set.now) }
    ensures { OnOk result ((earlier : List OfPrograms)
        → AreNewTables (draft_tree set.now) earlier made.old.items
        → AreNewTables (draft_tree set.now) (earlier ++ pair ∷ []) made.new.items) }
{
    let table = free_name(alloc, set, made)?;
    let first_count = params_of(set.draft(), pair.from);
    let second_count = params_of(set.draft(), pair.to);
    let key = key_of(alloc, paths, pair, first_count, second_count)?;
    made.push(NewTable { pair, table, key })?;
    Ok(())
}

// The pairs, each with its own new name and its key.
fn new_tables(
    alloc: Global,
    set: &ProgramSet,
    paths: &[Path],
    pairs: &[Pair],
) -> Result<Vec<NewTable>, AllocError>
    requires { paths.now ≡ paths_of (draft_tree set.now) }
    ensures { IfOk result (λ made. AreNewTables (draft_tree set.now) pairs.now made.items) }
{
    let mut made = Vec::new(alloc);
    for pair in pairs {
        push_new_table(alloc, set, paths, *pair, &mut made)?;
    }
    Ok(made)
}

// As many of the pairs as new tables fit, and one more, with which the set is too large.
fn pairs_to_meet<'a>(draft: &Draft, pairs: &'a [Pair]) -> &'a [Pair]
    ensures { result.now
        ≡ take (1 + (MAX_TABLES - length (draft_tree draft.now).tables)) pairs.now }
{
    let room = MAX_TABLES.saturating_sub(draft.tables.len());
    let most = pairs.len().min(1 + room);
    &pairs[..most]
}

// The set with what the pairs make, or none where that breaks a limit.
fn with_new_tables(
    alloc: Global,
    set: &ProgramSet,
    made: &[NewTable],
) -> Result<Option<ProgramSet>, AllocError>
    requires { All (HasKey (draft_tree set.now)) made.now }
    ensures made { IfOk result (λ o. IfSome o
        (λ s. draft_tree s ≡ materialised_by (draft_tree set.now) made.now)) }
    ensures sound { IfOk result (λ o. IfSome o (λ s. IsSound (draft_tree s))) }
    ensures refused { IfOk result (λ o. IfNone o
        (IsRefused (materialised_by (draft_tree set.now) made.now))) }
{
    let draft = set.draft();
    let whole = materialised_draft(alloc, draft, made)?;
    checked_set(alloc, whole)
}

// New tables, of which the first ones are made.
#[derive(Drop)]
struct FirstNewTables<'a> {
    set: &'a ProgramSet,
    made: &'a [NewTable],
}

impl<'a> Firsts for FirstNewTables<'a> {
    ghost stands = { λ firsts. All (HasKey (draft_tree firsts.set.now)) firsts.made.now };

    ghost count = { λ firsts. length firsts.made.now };

    ghost fits = { λ firsts n. IsSound (materialised_by (draft_tree firsts.set.now)
        (take n firsts.made.now)) };

    ghost is_refused = { λ firsts n. IsRefused (materialised_by (draft_tree firsts.set.now)
        (take n firsts.made.now)) };

    // Whether the set with what the first pairs make breaks no limit.
    fn fit(&self, alloc: Global, n: usize) -> Result<bool, AllocError> {
        let repaired = with_new_tables(alloc, self.set, &self.made[..n])?;
        Ok(repaired.is_some())
    }
}

// The first of the pairs with which what they make is too large, where with all of them it is.
fn first_stop(
    alloc: Global,
    set: &ProgramSet,
    pairs: &[Pair],
    made: &[NewTable],
) -> Result<Pair, AllocError>
    requires met { AreNewTables (draft_tree set.now)
        (take (length made.now) pairs.now) made.now }
    requires some { 0 < length made.now }
    requires sound { IsSound (draft_tree set.now) }
    requires large { IsRefused (materialised_by (draft_tree set.now) made.now) }
    ensures { IfOk result (λ stopping. IsRepairFault
        (StopsMaterialising (draft_tree set.now) pairs.now) pairs.now (TooMany stopping)) }
{
    let firsts = FirstNewTables { set, made };
    let fitting = most_that_fit(alloc, &firsts, made.len())?;
    Ok(made[fitting].pair)
}

/// The set with a new table for each pair of the plan, of which both programs of the pair keep one
/// row in front of all they do.
pub fn materialise(alloc: Global, set: &ProgramSet, plan: &Plan) -> Result<ProgramSet, RepairFault>
    ensures repaired { IfOk result (λ s. IsCarriedOut IsMaterialised StopsMaterialising
        (draft_tree set.now) plan.now.pairs (draft_tree s)) }
    ensures refused { IfErr result (λ fault. IsRepairFault
        (StopsMaterialising (draft_tree set.now) plan.now.pairs)
        plan.now.pairs fault) }
{
    let paths = paths(alloc, set)?;
    let pairs = plan.pairs.as_slice();
    let made = new_tables(alloc, set, &paths, pairs_to_meet(set.draft(), pairs))?;
    match with_new_tables(alloc, set, &made)? {
        Some(repaired) => Ok(repaired),
        None => Err(RepairFault::TooMany(first_stop(alloc, set, pairs, &made)?)),
    }
}
