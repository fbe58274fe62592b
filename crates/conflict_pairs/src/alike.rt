//! Accesses that are alike, and nodes with the same covers.
ghost use Rattle.std.specs.Prelude.{◌≡◌, ◌↔◌, ◌<◌, length, IsTrue, IfOk};
ghost use Rattle.prog_paths.specs.Places.{AreAlike};
ghost use Rattle.conflict_pairs.specs.Alike.{CoverAlike, HaveSameCovers, accesses_at};
ghost use Rattle.conflict_pairs.specs.Alike.{AreCoverClasses};

use prog_check::{Access, Column, Path};
use prog_paths::may_cover;
use std::alloc::{AllocError, Global};

fn is_same_column(one: Column, other: Column) -> bool
    ensures { IsTrue result ↔ (one ≡ other) }
{
    one.low == other.low && one.high == other.high
}

fn is_same_second(one: Option<Column>, other: Option<Column>) -> bool
    ensures { IsTrue result ↔ (one ≡ other) }
{
    match (one, other) {
        (Some(one), Some(other)) => is_same_column(one, other),
        (None, None) => true,
        _ => false,
    }
}

/// Whether two accesses are equal but for their places.
pub fn are_alike(one: &Access, other: &Access) -> bool
    ensures { IsTrue result → AreAlike one.now other.now }
{
    one.table == other.table
        && one.sure == other.sure
        && one.kind == other.kind
        && is_same_column(one.first, other.first)
        && is_same_second(one.second, other.second)
}

// Whether two accesses are alike, or neither may cover.
fn cover_alike(one: &Access, other: &Access) -> bool
    ensures { IsTrue result → CoverAlike one.now other.now }
{
    are_alike(one, other) || (!may_cover(one) && !may_cover(other))
}

// Whether what may cover in two lists is alike, number by number.
fn have_same_covers(xs: &[Access], ys: &[Access]) -> bool
    ensures { IsTrue result → HaveSameCovers xs.now ys.now }
{
    if xs.len() != ys.len() {
        return false;
    }
    for k in 0..xs.len() {
        if !cover_alike(&xs[k], &ys[k]) {
            return false;
        }
    }
    true
}

// The first node with the covers of a node.
fn cover_class_of(paths: &[Path], x: usize) -> usize
    requires { x < length paths.now }
    ensures { HaveSameCovers (accesses_at paths.now x) (accesses_at paths.now result) }
{
    let xs = paths[x].accesses.as_slice();
    for c in 0..x {
        if have_same_covers(xs, paths[c].accesses.as_slice()) {
            return c;
        }
    }
    x
}

/// For each node the first one with the same covers.
pub fn cover_classes_of(alloc: Global, paths: &[Path]) -> Result<Vec<usize>, AllocError>
    ensures { IfOk result (λ classes. AreCoverClasses paths.now classes.items) }
{
    let mut classes = Vec::with_capacity(alloc, paths.len())?;
    for x in 0..paths.len() {
        classes.push(cover_class_of(paths, x))?;
    }
    Ok(classes)
}
