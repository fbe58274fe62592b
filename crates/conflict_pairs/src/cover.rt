//! The chains of accesses that cover a question.
ghost use Rattle.std.specs.Prelude.{◌≡◌, ◌≢◌, ◌++◌, [], ◌∷◌, List, All, IfOk, OnOk, IsTrue};
ghost use Rattle.order_facts.specs.Chain.{Entails, IsConsistent, IsStep};
ghost use Rattle.prog_check.specs.declared.path.Term.{Term};
ghost use Rattle.prog_paths.specs.Shown.{Runs, ShowEqual, key_pairs, AllEqual};
ghost use Rattle.conflict_pairs.specs.Verdicts.{IsShortest};

use crate::chain::Chain;
use order_facts::{Closed, Node, is_same_node};
use prog_check::{Access, Term};
use prog_paths::{mine_node, second_terms, their_node};
use prog_tree::Sequence;
use std::alloc::{AllocError, Global};

// Whether the facts put a node at most another one in one step.
fn is_one_step(closed: &Closed, from: Node, to: Node) -> bool
    ensures { IsTrue result → (from ≢ to) × IsStep closed.now from to }
{
    !is_same_node(from, to) && closed.has_step(from, to)
}

// A shortest chain between two nodes of which the facts put the first at most the second. One of
// a single step takes no memory.
fn chain_between(closed: &Closed, from: Node, to: Node) -> Result<Chain, AllocError>
    requires consistent { IsConsistent closed.now }
    requires entailed { Entails closed.now from to }
    ensures runs { IfOk result (λ chain. Runs closed.now from to chain) }
    ensures shortest { IfOk result (λ chain. IsShortest closed.now chain) }
{
    if is_one_step(closed, from, to) {
        return Ok(Chain::of_two(from, to));
    }
    match closed.chain(from, to)? {
        Some(nodes) => Ok(Chain::from_vec(nodes)),
        None => unreachable!(),
    }
}

// Adds a chain from one term to another, and one back.
fn push_both(
    closed: &Closed,
    mine: Term,
    theirs: Term,
    chains: &mut Sequence<Chain>,
) -> Result<(), AllocError>
    requires consistent { IsConsistent closed.now }
    requires equal { AllEqual closed.now ((mine, theirs) ∷ []) }
    ensures equal { OnOk result
        ((pairs : List (Term × Term)) → ShowEqual closed.now pairs chains.old
        → ShowEqual closed.now (pairs ++ (mine, theirs) ∷ []) chains.new) }
    ensures shortest { OnOk result
        (All (IsShortest closed.now) chains.old → All (IsShortest closed.now) chains.new) }
{
    let mine = mine_node(mine);
    let theirs = their_node(theirs);
    chains.push(chain_between(closed, mine, theirs)?)?;
    chains.push(chain_between(closed, theirs, mine)?)?;
    Ok(())
}

/// The chains of two accesses that cover, column by column: mine to theirs, then theirs to mine.
pub fn cover_chains(
    alloc: Global,
    closed: &Closed,
    mine: &Access,
    theirs: &Access,
) -> Result<Sequence<Chain>, AllocError>
    requires consistent { IsConsistent closed.now }
    requires equal { AllEqual closed.now (key_pairs mine.now theirs.now) }
    ensures equal { IfOk result
        (λ chains. ShowEqual closed.now (key_pairs mine.now theirs.now) chains) }
    ensures shortest { IfOk result (λ chains. All (IsShortest closed.now) chains) }
{
    let mut chains = Sequence::new(alloc);
    push_both(closed, mine.first.low, theirs.first.low, &mut chains)?;
    let Some((mine, theirs)) = second_terms(mine.second, theirs.second) else {
        return Ok(chains);
    };
    push_both(closed, mine, theirs, &mut chains)?;
    Ok(chains)
}
