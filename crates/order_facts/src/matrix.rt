//! Which fact leads to which: a square table with a row and a column for each fact.

ghost use Rattle.std.specs.Prelude.{◌≡◌, ◌<◌, [], length, IfOk};
ghost use Rattle.order_facts.specs.Matrix.{EntersEnds, IsMatrixOf};

use crate::square::Square;
use crate::steps::{Fact, is_below};
use std::alloc::{AllocError, Global};

// Joins a fact to those whose lower node its upper node is below.
fn enter_ends(matrix: &mut Square, facts: &[Fact], from: usize)
    requires size { matrix.old.size ≡ length facts.now }
    requires from { from < length facts.now }
    ensures { EntersEnds matrix.old matrix.new facts.now from }
{
    for (to, fact) in facts.iter().enumerate() {
        if is_below(facts[from].hi, fact.lo) {
            matrix.raise(from, to);
        }
    }
}

// What leads to what with no fact between.
fn ends_of(alloc: Global, facts: &[Fact]) -> Result<Square, AllocError>
    ensures { IfOk result (λ m. IsMatrixOf m facts.now []) }
{
    let mut matrix = Square::new(alloc, facts.len())?;
    for from in 0..facts.len() {
        enter_ends(&mut matrix, facts, from);
    }
    Ok(matrix)
}

/// For each two facts, whether the first leads to the second: whether its upper node is below the
/// other's lower one.
pub fn matrix_of(alloc: Global, facts: &[Fact]) -> Result<Square, AllocError>
    ensures { IfOk result (λ m. IsMatrixOf m facts.now facts.now) }
{
    let mut matrix = ends_of(alloc, facts)?;
    let mut through = facts.len();
    while through > 0 {
        through -= 1;
        matrix.join(through);
    }
    Ok(matrix)
}
