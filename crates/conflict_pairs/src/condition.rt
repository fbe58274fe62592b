//! Tests of what a verdict needs.
ghost use Rattle.std.specs.Prelude.{◌↔◌, IsTrue};
ghost use Rattle.prog_paths.specs.Meeting.{MayTouch, IsSingle, IsSingleSecond};
ghost use Rattle.prog_paths.specs.Questions.{IsQuestion, ChangesSingleCells, two, between};

use prog_check::{Access, Column, Path};
use prog_paths::{Placed, asks, may_touch};

/// Whether access `a` of one path against access `b` of another is a question.
pub fn is_question(x: &Path, a: usize, y: &Path, b: usize) -> bool
    ensures { IsTrue result ↔ IsQuestion (two x.now y.now) (between a b) }
{
    let xs = x.accesses.as_slice();
    let ys = y.accesses.as_slice();
    if a >= xs.len() || b >= ys.len() {
        return false;
    }
    let first = Placed {
        node: 0,
        number: a,
        access: xs[a],
    };
    let second = Placed {
        node: 1,
        number: b,
        access: ys[b],
    };
    asks(&first, &second)
}

fn is_single_second(column: Option<Column>) -> bool
    ensures { IsTrue result ↔ IsSingleSecond column }
{
    match column {
        Some(column) => column.low == column.high,
        None => true,
    }
}

fn is_single_change(access: &Access) -> bool
    ensures { IsTrue result ↔ (MayTouch access.now → IsSingle access.now) }
{
    let first = access.first;
    !may_touch(access) || (first.low == first.high && is_single_second(access.second))
}

/// Whether each access of a path that changes or keeps is of a single cell, as it is on the paths
/// of a checked set.
pub fn changes_single_cells(path: &Path) -> bool
    ensures { IsTrue result ↔ ChangesSingleCells path.now }
{
    path.accesses
        .as_slice()
        .iter()
        .all(|access| is_single_change(access))
}
