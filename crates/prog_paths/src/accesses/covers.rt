//! Pairs of accesses that cover a question.
ghost use Rattle.std.specs.Prelude.{◌≡◌, ◌↔◌, ◌<◌, [], ◌∷◌, ℕ, IfSome, IfNone, IsTrue, Some};
ghost use Rattle.std.specs.Prelude.{slice_get};
ghost use Rattle.prog_check.specs.declared.path.Access.{Access};
ghost use Rattle.prog_paths.specs.Shown.{second_terms, AllEqual, CoversBy, CoversAt, CoversFirst};

use crate::accesses::facts::{mine_node, second_terms, their_node};
use crate::accesses::questions::may_cover;
use order_facts::Closed;
use prog_check::{Access, Column, Term};

// Whether the facts put the two terms at most each other.
fn is_equal(closed: &Closed, mine: Term, theirs: Term) -> bool
    ensures { IsTrue result ↔ AllEqual closed.now ((mine, theirs) ∷ []) }
{
    closed.forces_equal(mine_node(mine), their_node(theirs))
}

// Whether they do for the terms of the second columns, where there are such.
fn is_equal_second(closed: &Closed, mine: Option<Column>, theirs: Option<Column>) -> bool
    ensures { IsTrue result ↔ AllEqual closed.now (second_terms mine theirs) }
{
    match second_terms(mine, theirs) {
        Some((mine, theirs)) => is_equal(closed, mine, theirs),
        None => true,
    }
}

// Whether both change or keep, at one cell by the facts.
fn covers(closed: &Closed, mine: &Access, theirs: &Access) -> bool
    ensures { IsTrue result ↔ CoversBy closed.now mine.now theirs.now }
{
    may_cover(mine)
        && may_cover(theirs)
        && mine.table == theirs.table
        && is_equal(closed, mine.first.low, theirs.first.low)
        && is_equal_second(closed, mine.second, theirs.second)
}

// The number of the first access that covers with one of the first path. None is looked at where
// that one may not cover.
fn first_covering(closed: &Closed, mine: &Access, theirs: &[Access]) -> Option<usize>
    ensures some { IfSome result (λ t. (of_theirs : Access)
        × (slice_get theirs.now t ≡ Some of_theirs) × CoversBy closed.now mine.now of_theirs) }
    ensures first { IfSome result (λ t. (j : ℕ) (of_theirs : Access) → j < t
        → slice_get theirs.now j ≡ Some of_theirs → ¬ CoversBy closed.now mine.now of_theirs) }
    ensures none { IfNone result ((j : ℕ) (of_theirs : Access)
        → slice_get theirs.now j ≡ Some of_theirs → ¬ CoversBy closed.now mine.now of_theirs) }
{
    if !may_cover(mine) {
        return None;
    }
    theirs
        .iter()
        .position(|of_theirs| covers(closed, mine, of_theirs))
}

/// The numbers of the least pair that covers, by the first path's access and then by the other's.
pub fn least_cover(closed: &Closed, mine: &[Access], theirs: &[Access]) -> Option<(usize, usize)>
    ensures some { IfSome result (λ c. CoversFirst closed.now mine.now theirs.now c.0 c.1) }
    ensures none { IfNone result ((m t : ℕ) → ¬ CoversAt closed.now mine.now theirs.now m t) }
{
    for (m, of_mine) in mine.iter().enumerate() {
        if let Some(t) = first_covering(closed, of_mine, theirs) {
            return Some((m, t));
        }
    }
    None
}
