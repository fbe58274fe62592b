//! The key under which the two programs of a pair meet.
ghost use Rattle.std.specs.Prelude.{◌≡◌, ◌↔◌, ◌++◌, ℕ, List, All, IfOk, OnOk, IsTrue};
ghost use Rattle.prog_paths.specs.Questions.{ChangesSingleCells};
ghost use Rattle.prog_paths.specs.declared.accesses.questions.Question.{Question as Asked};
ghost use Rattle.repair_laws.specs.Keys.{IsKeyOf};
ghost use Rattle.si_repair.specs.Key.{IsMissed, AreFactsOf, PutEqual, AreLeft, AreForced};
ghost use Rattle.si_repair.specs.Key.{params_with, all_pairs};

use crate::repairs::exposed::{exposed_to, places_of_pair};
use conflict_pairs::access_at;
use order_facts::{Closed, Node};
use prog_check::Path;
use prog_paths::{Question, closed_facts};
use repair_laws::Pair;
use std::alloc::{AllocError, Global};

// What the facts of a question entail.
fn facts_of(alloc: Global, paths: &[Path], question: &Question) -> Result<Closed, AllocError>
    requires { IsMissed paths.now question.now }
    ensures { IfOk result (λ closed. AreFactsOf paths.now question.now closed) }
{
    let mine = access_at(paths, question.x, question.a);
    let theirs = access_at(paths, question.y, question.b);
    closed_facts(alloc, mine, theirs)
}

// Whether the facts put two parameters at most each other.
fn puts_equal(closed: &Closed, both: (usize, usize)) -> bool
    ensures { IsTrue result ↔ PutEqual closed.now both }
{
    closed.forces_equal(Node::Mine(both.0), Node::Theirs(both.1))
}

// Those of some pairs of parameters that the facts put equal.
fn left_by(
    alloc: Global,
    closed: &Closed,
    pairs: &[(usize, usize)],
) -> Result<Vec<(usize, usize)>, AllocError>
    ensures { IfOk result (λ left. AreLeft closed.now pairs.now left.items) }
{
    let mut left = Vec::new(alloc);
    for both in pairs {
        if puts_equal(closed, *both) {
            left.push(*both)?;
        }
    }
    Ok(left)
}

// Adds one parameter with each of so many.
fn push_pairs(
    pairs: &mut Vec<(usize, usize)>,
    first: usize,
    second_count: usize,
) -> Result<(), AllocError>
    ensures { OnOk result (pairs.new.items ≡ pairs.old.items ++ params_with first second_count) }
{
    for second in 0..second_count {
        pairs.push((first, second))?;
    }
    Ok(())
}

// Each of so many parameters with each of so many others, in order.
fn all_pairs(
    alloc: Global,
    first_count: usize,
    second_count: usize,
) -> Result<Vec<(usize, usize)>, AllocError>
    ensures { IfOk result (λ pairs. pairs.items ≡ all_pairs first_count second_count) }
{
    let mut pairs = Vec::new(alloc);
    for first in 0..first_count {
        push_pairs(&mut pairs, first, second_count)?;
    }
    Ok(pairs)
}

// Those of some pairs of parameters that each of the questions forces equal, wherever it meets.
fn left_of(
    alloc: Global,
    paths: &[Path],
    questions: &[Question],
    pairs: Vec<(usize, usize)>,
) -> Result<Vec<(usize, usize)>, AllocError>
    requires single { All ChangesSingleCells paths.now }
    requires missed { All (λ q. IsMissed paths.now q) questions.now }
    ensures { IfOk result (λ left. (earlier : List Asked) (first_count second_count : ℕ)
        → AreForced paths.now earlier first_count second_count pairs.items
        → AreForced paths.now (earlier ++ questions.now) first_count second_count left.items) }
{
    let mut left = pairs;
    for question in questions {
        let closed = facts_of(alloc, paths, question)?;
        left = left_by(alloc, &closed, &left)?;
    }
    Ok(left)
}

/// The least parameters of a pair's two programs, which have so many each, that every exposed
/// question of the pair forces equal. No more is asked where none are left.
pub fn key_of(
    alloc: Global,
    paths: &[Path],
    pair: Pair,
    first_count: usize,
    second_count: usize,
) -> Result<Option<(usize, usize)>, AllocError>
    requires { All ChangesSingleCells paths.now }
    ensures { IfOk result (λ key. IsKeyOf paths.now pair first_count second_count key) }
{
    let places = places_of_pair(alloc, paths, pair)?;
    let reads = places.reads.as_slice();
    let changes = places.changes.as_slice();
    let mut pairs = all_pairs(alloc, first_count, second_count)?;
    for read in reads {
        if pairs.is_empty() {
            return Ok(None);
        }
        let questions = exposed_to(alloc, paths, read, changes)?;
        pairs = left_of(alloc, paths, &questions, pairs)?;
    }
    let left = pairs.as_slice();
    Ok(left.first().copied())
}
