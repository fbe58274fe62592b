//! A plan, made pair by pair.
ghost use Rattle.std.specs.Prelude.{◌+◌, List, IfOk};
ghost use Rattle.prog_check.specs.declared.path.Path.{Path};
ghost use Rattle.repair_laws.specs.Closing.{pair_from, AndThis};
ghost use Rattle.repair_laws.specs.Plans.{IsPlan};
ghost use Rattle.si_repair.specs.Planning.{AreClosing, AreOfPrograms, IsBeforeTurn, IsPartialPlan};

use crate::plans::closing::ProgramTriple;
use crate::plans::open::{is_open_at, triples_without};
use repair_laws::Pair;
use std::alloc::{AllocError, Global};

/// A plan as far as it is made, with the triples that close a structure and have no pair of it.
#[derive(Drop)]
pub struct PartialPlan {
    pub plan: Vec<Pair>,
    pub left: Vec<ProgramTriple>,
}

// Puts a pair into the plan where a structure is left without it.
fn take_turn(alloc: Global, partial: PartialPlan, turn: Pair) -> Result<PartialPlan, AllocError>
    ensures { IfOk result (λ next. (nodes : List Path)
        → IsPartialPlan nodes partial.plan.items partial.left.items (IsBeforeTurn turn)
        → IsPartialPlan nodes next.plan.items next.left.items (AndThis (IsBeforeTurn turn) turn)) }
{
    if !is_open_at(&partial.left, turn) {
        return Ok(partial);
    }
    let left = triples_without(alloc, &partial.left, turn)?;
    let mut plan = partial.plan;
    plan.push(turn)?;
    Ok(PartialPlan { plan, left })
}

// Takes the turns of the pairs from a program.
fn take_turns(
    alloc: Global,
    partial: PartialPlan,
    programs: usize,
    from: usize,
) -> Result<PartialPlan, AllocError>
    ensures { IfOk result (λ next. (nodes : List Path) → AreOfPrograms programs nodes
        → IsPartialPlan nodes partial.plan.items partial.left.items
        (IsBeforeTurn (pair_from from 0))
        → IsPartialPlan nodes next.plan.items next.left.items
        (IsBeforeTurn (pair_from (from + 1) 0))) }
{
    let mut next = partial;
    for to in 0..programs {
        next = take_turn(alloc, next, Pair { from, to })?;
    }
    Ok(next)
}

/// The plan of paths of so many programs, which these triples close.
pub fn choose(
    alloc: Global,
    programs: usize,
    triples: Vec<ProgramTriple>,
) -> Result<Vec<Pair>, AllocError>
    ensures { IfOk result (λ plan. (nodes : List Path) → AreOfPrograms programs nodes
        → AreClosing nodes programs triples.items → IsPlan nodes plan.items) }
{
    let mut partial = PartialPlan {
        plan: Vec::new(alloc),
        left: triples,
    };
    for from in 0..programs {
        partial = take_turns(alloc, partial, programs, from)?;
    }
    Ok(partial.plan)
}
