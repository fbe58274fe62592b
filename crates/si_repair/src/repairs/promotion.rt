//! Repairs by promotion: a program keeps the cell that it read.
ghost use Rattle.std.specs.Prelude.{◌≡◌, ◌<◌, All, IfErr, IfNone, IfOk, IfSome, OnOk, length, take};
ghost use Rattle.prog_tree.specs.Tree.{draft_tree};
ghost use Rattle.prog_check.specs.Paths.{paths_of};
ghost use Rattle.prog_check.specs.Sound.{IsSound};
ghost use Rattle.repair_laws.specs.Promoted.{IsPromoted, MarksExposed};
ghost use Rattle.repair_laws.specs.Refusals.{IsCoverable, StopsPromotion};
ghost use Rattle.si_repair.specs.Exposed.{AreExposed};
ghost use Rattle.si_repair.specs.Promotion.{pairs_of, AreCoverable, AreGathered, HasItsQuestions};
ghost use Rattle.si_repair.specs.Promotion.{HasCoverableReads, IsRefusedWith, IsSoundWith};
ghost use Rattle.si_repair.specs.Marks.{is_marked};
ghost use Rattle.si_repair.specs.Obstacles.{IsObstacleFault};
ghost use Rattle.si_repair.specs.Repairing.{IsCarriedOut, IsRepairFault};
ghost use Rattle.si_repair.specs.declared.repairs.fault.RepairFault.TheVariants.{TooMany};

use crate::plans::Plan;
use crate::repairs::behind::promoted_draft;
use crate::repairs::bisecting::{Firsts, most_that_fit};
use crate::repairs::checked::checked_set;
use crate::repairs::exposed::exposed_questions;
use crate::repairs::fault::RepairFault;
use crate::repairs::marks::{MarkedStatement, push_reads};
use crate::repairs::obstacles::{Obstacle, first_obstacle};
use prog_check::{Path, ProgramSet};
use prog_paths::{Question, paths};
use prog_tree::Draft;
use repair_laws::Pair;
use std::alloc::{AllocError, Global};

// Refuses a pair with an exposed read that no keep covers.
fn refuse_obstacle(
    alloc: Global,
    draft: &Draft,
    paths: &[Path],
    pair: Pair,
    questions: &[Question],
) -> Result<(), RepairFault>
    requires paths { paths.now ≡ paths_of (draft_tree draft.now) }
    requires exposed { AreExposed paths.now pair questions.now }
    ensures passed { OnOk result (IsCoverable (draft_tree draft.now) pair) }
    ensures refused { IfErr result (λ fault. IsObstacleFault (draft_tree draft.now) pair fault) }
{
    match first_obstacle(alloc, draft, paths, pair, questions)? {
        Some(Obstacle::RangeRead) => Err(RepairFault::RangeRead(pair)),
        Some(Obstacle::UnknownKey) => Err(RepairFault::UnknownKey(pair)),
        Some(Obstacle::BodyRead) => Err(RepairFault::BodyRead(pair)),
        None => Ok(()),
    }
}

// The exposed questions of a pair, if keeps cover its reads.
fn coverable_questions(
    alloc: Global,
    draft: &Draft,
    paths: &[Path],
    pair: Pair,
) -> Result<Vec<Question>, RepairFault>
    requires { paths.now ≡ paths_of (draft_tree draft.now) }
    ensures exposed { IfOk result (λ questions. AreExposed paths.now pair questions.items) }
    ensures passed { OnOk result (IsCoverable (draft_tree draft.now) pair) }
    ensures refused { IfErr result (λ fault. IsObstacleFault (draft_tree draft.now) pair fault) }
{
    let questions = exposed_questions(alloc, paths, pair)?;
    refuse_obstacle(alloc, draft, paths, pair, &questions)?;
    Ok(questions)
}

// A pair whose exposed reads keeps cover, with the questions of these reads.
#[derive(Drop)]
struct CoverablePair {
    pair: Pair,
    questions: Vec<Question>,
}

// The first pairs of a plan, whose reads keeps cover, and the fault of the next one, where they
// do not.
#[derive(Drop)]
struct CoverablePairs {
    coverable: Vec<CoverablePair>,
    fault: Option<RepairFault>,
}

// The pairs up to the first that no keeps cover, or all.
fn coverable_pairs(
    alloc: Global,
    draft: &Draft,
    paths: &[Path],
    pairs: &[Pair],
) -> Result<CoverablePairs, AllocError>
    requires { paths.now ≡ paths_of (draft_tree draft.now) }
    ensures { IfOk result (λ all. AreGathered (draft_tree draft.now) pairs.now
        all.coverable.items all.fault) }
{
    let mut coverable = Vec::new(alloc);
    for pair in pairs {
        match coverable_questions(alloc, draft, paths, *pair) {
            Ok(questions) => coverable.push(CoverablePair {
                pair: *pair,
                questions,
            })?,
            Err(fault) => return Ok(CoverablePairs {
                coverable,
                fault: Some(fault),
            }),
        }
    }
    Ok(CoverablePairs {
        coverable,
        fault: None,
    })
}

// The marks of the exposed reads of these pairs.
fn marked_statements(
    alloc: Global,
    paths: &[Path],
    coverable: &[CoverablePair],
) -> Result<Vec<MarkedStatement>, AllocError>
    requires { All (HasItsQuestions paths.now) coverable.now }
    ensures { IfOk result (λ marks.
        MarksExposed paths.now (pairs_of coverable.now) (is_marked marks.items)) }
{
    let mut marks = Vec::new(alloc);
    for each in coverable {
        push_reads(&mut marks, paths, each.pair, &each.questions)?;
    }
    Ok(marks)
}

// The set with keeps for these pairs, or none where that breaks a limit.
fn with_keeps(
    alloc: Global,
    set: &ProgramSet,
    paths: &[Path],
    coverable: &[CoverablePair],
) -> Result<Option<ProgramSet>, AllocError>
    requires paths { paths.now ≡ paths_of (draft_tree set.now) }
    requires coverable { All (HasCoverableReads (draft_tree set.now)) coverable.now }
    ensures made { IfOk result (λ o. IfSome o
        (λ s. IsPromoted (draft_tree set.now) (pairs_of coverable.now) (draft_tree s))) }
    ensures sound { IfOk result (λ o. IfSome o (λ s. IsSound (draft_tree s))) }
    ensures refused { IfOk result (λ o. IfNone o
        (IsRefusedWith (draft_tree set.now) (pairs_of coverable.now))) }
{
    let draft = set.draft();
    let marks = marked_statements(alloc, paths, coverable)?;
    let whole = promoted_draft(alloc, draft, &marks)?;
    checked_set(alloc, whole)
}

// The pairs that keeps cover, of which the first ones get theirs.
#[derive(Drop)]
struct FirstCoverable<'a> {
    set: &'a ProgramSet,
    paths: &'a [Path],
    coverable: &'a [CoverablePair],
}

impl<'a> Firsts for FirstCoverable<'a> {
    ghost stands = { λ firsts. (firsts.paths.now ≡ paths_of (draft_tree firsts.set.now))
        × All (HasCoverableReads (draft_tree firsts.set.now)) firsts.coverable.now };

    ghost count = { λ firsts. length firsts.coverable.now };

    ghost fits = { λ firsts n. IsSoundWith (draft_tree firsts.set.now)
        (pairs_of (take n firsts.coverable.now)) };

    ghost is_refused = { λ firsts n. IsRefusedWith (draft_tree firsts.set.now)
        (pairs_of (take n firsts.coverable.now)) };

    // Whether the set with keeps for the first pairs breaks no limit.
    fn fit(&self, alloc: Global, n: usize) -> Result<bool, AllocError> {
        let promoted = with_keeps(alloc, self.set, self.paths, &self.coverable[..n])?;
        Ok(promoted.is_some())
    }
}

// The first of the pairs with which what they make is too large, where with all of them it is.
fn first_stop(
    alloc: Global,
    set: &ProgramSet,
    paths: &[Path],
    pairs: &[Pair],
    coverable: &[CoverablePair],
) -> Result<Pair, AllocError>
    requires paths { paths.now ≡ paths_of (draft_tree set.now) }
    requires coverable { AreCoverable (draft_tree set.now)
        (take (length coverable.now) pairs.now) coverable.now }
    requires some { 0 < length coverable.now }
    requires sound { IsSound (draft_tree set.now) }
    requires large { IsRefusedWith (draft_tree set.now) (pairs_of coverable.now) }
    ensures { IfOk result (λ stopping. IsRepairFault
        (StopsPromotion (draft_tree set.now) pairs.now) pairs.now (TooMany stopping)) }
{
    let firsts = FirstCoverable {
        set,
        paths,
        coverable,
    };
    let fitting = most_that_fit(alloc, &firsts, coverable.len())?;
    Ok(coverable[fitting].pair)
}

// The set with keeps for pairs that were gathered, or the fault of the first that stops them: what
// is not too large with all of them is not with the first ones alone.
fn promoted_or_stop(
    alloc: Global,
    set: &ProgramSet,
    paths: &[Path],
    pairs: &[Pair],
    gathered: CoverablePairs,
) -> Result<ProgramSet, RepairFault>
    requires paths { paths.now ≡ paths_of (draft_tree set.now) }
    requires sound { IsSound (draft_tree set.now) }
    requires gathered { AreGathered (draft_tree set.now) pairs.now
        gathered.coverable.items gathered.fault }
    ensures repaired { IfOk result (λ s. IsCarriedOut IsPromoted StopsPromotion
        (draft_tree set.now) pairs.now (draft_tree s)) }
    ensures refused { IfErr result (λ fault. IsRepairFault
        (StopsPromotion (draft_tree set.now) pairs.now) pairs.now fault) }
{
    let Some(promoted) = with_keeps(alloc, set, paths, &gathered.coverable)? else {
        let stopping = first_stop(alloc, set, paths, pairs, &gathered.coverable)?;
        return Err(RepairFault::TooMany(stopping));
    };
    if let Some(fault) = gathered.fault {
        return Err(fault);
    }
    Ok(promoted)
}

/// The set in which the first program of each pair of a plan keeps, behind each of its reads that
/// is exposed to the second, the cell that it read. The first pair that can't be is the fault's.
pub fn promote(alloc: Global, set: &ProgramSet, plan: &Plan) -> Result<ProgramSet, RepairFault>
    ensures repaired { IfOk result (λ s. IsCarriedOut IsPromoted StopsPromotion
        (draft_tree set.now) plan.now.pairs (draft_tree s)) }
    ensures refused { IfErr result (λ fault. IsRepairFault
        (StopsPromotion (draft_tree set.now) plan.now.pairs) plan.now.pairs fault) }
{
    let paths = paths(alloc, set)?;
    let pairs = plan.pairs.as_slice();
    let gathered = coverable_pairs(alloc, set.draft(), &paths, pairs)?;
    promoted_or_stop(alloc, set, &paths, pairs, gathered)
}
