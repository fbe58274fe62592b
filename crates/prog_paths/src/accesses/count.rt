//! How many questions there are, without memory: table by table, each in one walk.
ghost use Rattle.std.specs.Prelude.{◌≡◌, ◌↔◌, ◌+◌, ◌^◌, ◌<◌, ◌++◌, ℕ, List, not, min, length, All};
ghost use Rattle.std.specs.Prelude.{IsTrue};
ghost use Rattle.prog_paths.specs.declared.accesses.places.Placed.{Placed};
ghost use Rattle.prog_paths.specs.Places.{placed_from, all_from};
ghost use Rattle.prog_paths.specs.Questions.{asked_among, questions_of};
ghost use Rattle.prog_paths.specs.Limits.{most_questions};
ghost use Rattle.prog_paths.specs.Tally.{IsTally, of_table, is_behind, is_before, NextIsGreater};

use crate::accesses::tally::{AccessTally, sum};
use crate::limits::MAX_QUESTIONS;
use prog_check::{Access, Path};

// The tally of a table with the accesses of one more node.
fn with_node(table: usize, accesses: &[Access], before: AccessTally) -> AccessTally
    ensures { (node : ℕ) (places : List Placed) → All (λ p. p.node < node) places
        → IsTally table places before
        → IsTally table (places ++ placed_from node 0 accesses.now) result }
{
    let mut tally = before;
    for access in accesses {
        if access.table == table {
            tally = tally.with(access.kind);
        }
    }
    tally
}

// The tally of a table with the accesses of all nodes.
fn tally_of(table: usize, paths: &[Path]) -> AccessTally
    ensures tally { IsTally table (all_from 0 paths.now) result }
    ensures fits { table < 2 ^ 64 }
{
    let mut tally = AccessTally::new();
    for path in paths {
        tally = with_node(table, path.accesses.as_slice(), tally);
    }
    tally
}

fn is_behind(last: Option<usize>, table: usize) -> bool
    ensures { result ≡ is_behind last table }
{
    match last {
        None => true,
        Some(last) => last < table,
    }
}

fn is_before(next: Option<usize>, table: usize) -> bool
    ensures { result ≡ is_before next table }
{
    match next {
        None => true,
        Some(next) => table < next,
    }
}

// The least table behind the last one that one more node uses, or the one that was found.
fn next_in(accesses: &[Access], last: Option<usize>, found: Option<usize>) -> Option<usize>
    ensures rises { NextIsGreater last found → NextIsGreater last result }
    ensures keeps { (table : ℕ) → is_before found table ≡ not (is_behind last table)
        → is_before result table ≡ not (is_behind last table) }
    ensures all { NextIsGreater last found
        → All (λ a. is_before result a.table ≡ not (is_behind last a.table)) accesses.now }
{
    let mut next = found;
    for access in accesses {
        if is_behind(last, access.table) && is_before(next, access.table) {
            next = Some(access.table);
        }
    }
    next
}

// The least table behind the last one that the paths use.
fn next_table(paths: &[Path], last: Option<usize>) -> Option<usize>
    ensures rises { NextIsGreater last result }
    ensures all { All (λ p. is_before result p.access.table ≡ not (is_behind last p.access.table))
        (all_from 0 paths.now) }
{
    let mut next = None;
    for path in paths {
        next = next_in(path.accesses.as_slice(), last, next);
    }
    next
}

/// How many questions the paths ask, no further than one above the limit.
pub fn question_count(paths: &[Path]) -> usize
    ensures { result ≡ min (length (questions_of paths.now)) (most_questions + 1) }
{
    let mut count = 0;
    let mut next = next_table(paths, None);
    while let Some(table) = next {
        count = sum(count, tally_of(table, paths).questions);
        next = next_table(paths, Some(table));
    }
    count
}

/// Whether the paths ask more questions than a table may have.
pub fn is_too_large(paths: &[Path]) -> bool
    ensures { IsTrue result ↔ (most_questions < length (questions_of paths.now)) }
{
    question_count(paths) > MAX_QUESTIONS
}
