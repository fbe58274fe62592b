//! The least dangerous structure of a list of paths.

ghost use Rattle.std.specs.Prelude.{◌≡◌, ◌↔◌, ◌<◌, length, All, IsTrue, IfOk, IfSome, IfNone};
ghost use Rattle.prog_paths.specs.Questions.{ChangesSingleCells};
ghost use Rattle.prog_paths.specs.StaticGraph.{AsksReadWrite, IsVulnerable};
ghost use Rattle.conflict_pairs.specs.Alike.{accesses_at};
ghost use Rattle.dep_graph.specs.Danger.{IsExposureAt, IsLeastOfAccess, IsLeastExposed};

use conflict_pairs::{Question, Verdict, verdict};
use order_facts::Sample;
use prog_check::{Access, Path};
use prog_paths::asks_read_write;
use prog_tree::Sequence;
use std::alloc::{AllocError, Global};

/// An exposed question, with the sample under which its two accesses meet.
#[derive(Drop)]
pub struct Exposure {
    pub question: Question,
    pub sample: Sample,
}

/// Two vulnerable edges in a row, x to y and y to z, each with its least exposed question, and the
/// nodes of the least way back from z to x.
#[derive(Drop)]
pub struct Danger {
    pub x: usize,
    pub y: usize,
    pub z: usize,
    pub first: Exposure,
    pub second: Exposure,
    pub back: Sequence<usize>,
}

// The accesses of a node.
fn accesses_of(paths: &[Path], x: usize) -> &[Access]
    requires { x < length paths.now }
    ensures { result.now ≡ accesses_at paths.now x }
{
    paths[x].accesses.as_slice()
}

// Whether the first access may miss what the second changes.
fn may_miss(mine: &Access, theirs: &Access) -> bool
    ensures { IsTrue result
        ↔ ((mine.now.table ≡ theirs.now.table) × AsksReadWrite mine.now.kind theirs.now.kind) }
{
    mine.table == theirs.table && asks_read_write(mine.kind, theirs.kind)
}

// The question of access `a` of the node `x` against access `b` of `y`, with its sample, where it
// makes the edge from `x` to `y` vulnerable.
fn exposure_at(
    alloc: Global,
    paths: &[Path],
    x: usize,
    a: usize,
    y: usize,
    b: usize,
) -> Result<Option<Exposure>, AllocError>
    requires x { x < length paths.now }
    requires a { a < length (accesses_at paths.now x) }
    requires y { y < length paths.now }
    requires b { b < length (accesses_at paths.now y) }
    requires single { All ChangesSingleCells paths.now }
    ensures found { IfOk result (λ found. IfSome found
        (IsExposureAt paths.now (record { x = x; a = a; y = y; b = b }))) }
    ensures none { IfOk result (λ found. IfNone found ((h : IsVulnerable paths.now x y)
        → ¬ ((h.question.a ≡ a) × (h.question.b ≡ b)))) }
{
    let mine = &accesses_of(paths, x)[a];
    let theirs = &accesses_of(paths, y)[b];
    if !may_miss(mine, theirs) {
        return Ok(None);
    }
    match verdict(alloc, &paths[x], a, &paths[y], b)? {
        Verdict::Exposed(sample) => {
            let question = Question {
                x,
                a,
                y,
                b,
                mine: mine.kind,
                theirs: theirs.kind,
            };
            Ok(Some(Exposure { question, sample }))
        }
        _ => Ok(None),
    }
}

// The first question of access `a` of the node `x` that makes the edge to `y` vulnerable, with its
// sample.
fn first_of_access(
    alloc: Global,
    paths: &[Path],
    x: usize,
    a: usize,
    y: usize,
) -> Result<Option<Exposure>, AllocError>
    requires x { x < length paths.now }
    requires a { a < length (accesses_at paths.now x) }
    requires y { y < length paths.now }
    requires single { All ChangesSingleCells paths.now }
    ensures found { IfOk result (λ found. IfSome found (IsLeastOfAccess paths.now x a y)) }
    ensures none { IfOk result (λ found. IfNone found ((h : IsVulnerable paths.now x y)
        → ¬ (h.question.a ≡ a))) }
{
    let count = accesses_of(paths, y).len();
    for b in 0..count {
        if let Some(exposure) = exposure_at(alloc, paths, x, a, y, b)? {
            return Ok(Some(exposure));
        }
    }
    Ok(None)
}

/// The first question that makes the edge from `x` to `y` vulnerable, with its sample.
pub fn first_exposure(
    alloc: Global,
    paths: &[Path],
    x: usize,
    y: usize,
) -> Result<Exposure, AllocError>
    requires single { All ChangesSingleCells paths.now }
    requires vulnerable { IsVulnerable paths.now x y }
    ensures { IfOk result (IsLeastExposed paths.now x y) }
{
    let count = accesses_of(paths, x).len();
    for a in 0..count {
        if let Some(exposure) = first_of_access(alloc, paths, x, a, y)? {
            return Ok(exposure);
        }
    }
    unreachable!()
}
