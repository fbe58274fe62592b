//! Exposed reads that no keep covers.
ghost use Rattle.std.specs.Prelude.{◌≡◌, ◌↔◌, false, All, IfOk, IsTrue};
ghost use Rattle.prog_tree.specs.Tree.{draft_tree};
ghost use Rattle.prog_check.specs.Paths.{paths_of};
ghost use Rattle.repair_laws.specs.Refusals.{IsUnknownTerm, IsUnknownSecond, HasUnknownKey};
ghost use Rattle.repair_laws.specs.Refusals.{MeetInBody};
ghost use Rattle.si_repair.specs.Exposed.{HasBoth, AreExposed};
ghost use Rattle.si_repair.specs.Obstacles.{IsObstacle, IsRangeIn, Hinders};
ghost use Rattle.si_repair.specs.Obstacles.{HasHindered, IsFirstHindered, IsFirstHinderedOf};

use crate::repairs::exposed::exposed_questions;
use crate::repairs::ranges::{is_range, ranges_of};
use conflict_pairs::access_at;
use prog_check::{Access, Column, Path, Term};
use prog_paths::Question;
use prog_tree::Draft;
use repair_laws::Pair;
use std::alloc::{AllocError, Global};

/// Why no keep covers a read.
#[derive(Clone, Copy, Debug, PartialEq, Eq)]
pub enum Obstacle {
    /// It is of a range.
    RangeRead,
    /// No parameters and numbers tell its key.
    UnknownKey,
    /// It stands in the body of an `each`, or what changes it does.
    BodyRead,
}

fn is_unknown(term: Term) -> bool
    ensures { IsTrue result ↔ IsUnknownTerm term }
{
    matches!(term, Term::Unknown(_))
}

fn is_unknown_second(column: Option<Column>) -> bool
    ensures { IsTrue result ↔ IsUnknownSecond column }
{
    match column {
        Some(column) => is_unknown(column.low),
        None => false,
    }
}

/// Whether no parameters and numbers tell the key of an access.
pub fn has_unknown_key(access: &Access) -> bool
    ensures { IsTrue result ↔ HasUnknownKey access.now }
{
    is_unknown(access.first.low) || is_unknown_second(access.second)
}

// Whether an access stands in the body of an `each`.
fn is_in_body(access: &Access) -> bool
    ensures { IsTrue result ↔ (access.now.sure ≡ false) }
{
    !access.sure
}

fn meet_in_body(read: &Access, other: &Access) -> bool
    ensures { IsTrue result ↔ MeetInBody read.now other.now }
{
    is_in_body(read) || is_in_body(other)
}

// Whether this is why no keep covers a read, with the access that it may miss.
fn hinders(obstacle: Obstacle, ranges: &[bool], read: &Access, other: &Access) -> bool
    ensures { IsTrue result ↔ Hinders obstacle (IsRangeIn ranges.now) read.now other.now }
{
    match obstacle {
        Obstacle::RangeRead => is_range(ranges, read.place),
        Obstacle::UnknownKey => has_unknown_key(read),
        Obstacle::BodyRead => meet_in_body(read, other),
    }
}

// The first question whose read no keep covers for this reason.
fn first_hindered(
    paths: &[Path],
    ranges: &[bool],
    questions: &[Question],
    obstacle: Obstacle,
) -> Option<Question>
    requires { All (λ q. HasBoth paths.now q) questions.now }
    ensures { IsFirstHindered paths.now (IsRangeIn ranges.now) obstacle questions.now result }
{
    for question in questions {
        let read = access_at(paths, question.x, question.a);
        let other = access_at(paths, question.y, question.b);
        if hinders(obstacle, ranges, read, other) {
            return Some(*question);
        }
    }
    None
}

// Whether an obstacle hinders one of some questions.
fn is_hindered(paths: &[Path], ranges: &[bool], questions: &[Question], obstacle: Obstacle) -> bool
    requires { All (λ q. HasBoth paths.now q) questions.now }
    ensures { IsTrue result
        ↔ HasHindered paths.now (IsRangeIn ranges.now) obstacle questions.now }
{
    first_hindered(paths, ranges, questions, obstacle).is_some()
}

/// Why a pair with these exposed questions can't be promoted: a range read before an unknown key,
/// and that before an access in a body.
pub fn first_obstacle(
    alloc: Global,
    draft: &Draft,
    paths: &[Path],
    pair: Pair,
    questions: &[Question],
) -> Result<Option<Obstacle>, AllocError>
    requires paths { paths.now ≡ paths_of (draft_tree draft.now) }
    requires exposed { AreExposed paths.now pair questions.now }
    ensures { IfOk result (λ obstacle. IsObstacle (draft_tree draft.now) pair obstacle) }
{
    let listed = ranges_of(alloc, draft, pair.from)?;
    let ranges = listed.as_slice();
    if is_hindered(paths, ranges, questions, Obstacle::RangeRead) {
        return Ok(Some(Obstacle::RangeRead));
    }
    if is_hindered(paths, ranges, questions, Obstacle::UnknownKey) {
        return Ok(Some(Obstacle::UnknownKey));
    }
    if is_hindered(paths, ranges, questions, Obstacle::BodyRead) {
        return Ok(Some(Obstacle::BodyRead));
    }
    Ok(None)
}

/// The first exposed question of a pair whose read no keep covers for this reason, or none.
pub fn hindered_question(
    alloc: Global,
    draft: &Draft,
    paths: &[Path],
    pair: Pair,
    obstacle: Obstacle,
) -> Result<Option<Question>, AllocError>
    requires { paths.now ≡ paths_of (draft_tree draft.now) }
    ensures { IfOk result (λ found.
        IsFirstHinderedOf (draft_tree draft.now) pair obstacle found) }
{
    let ranges = ranges_of(alloc, draft, pair.from)?;
    let questions = exposed_questions(alloc, paths, pair)?;
    let found = first_hindered(paths, &ranges, &questions, obstacle);
    Ok(found)
}
