//! Whether the levels rise over the edges that are left.
ghost use Rattle.std.specs.Prelude.{◌≡◌, ℕ, ◌<◌, ◌≤◌, length, IfSome, IfNone, OnOk, IfErr};
ghost use Rattle.order_facts.specs.Square.{Joins};
ghost use Rattle.robust_cert.specs.Accepted.{level_in};
ghost use Rattle.robust_cert.specs.Levels.{FallsIn, FallsFirst, IsLeastFall, StaysIn};
ghost use Rattle.robust_cert.specs.Levels.{StaysFirst, IsLowestBehind, StaysFirstBy};
ghost use Rattle.robust_cert.specs.Levels.{IsLeastFirstEdge, IsLeastStay, RiseOver, IsLevelFault};

use crate::fault::CertFault;
use order_facts::Square;
use prog_paths::EdgeTables;

/// Two nodes in a row.
#[derive(Clone, Copy)]
pub struct Edge {
    pub x: usize,
    pub y: usize,
}

/// Three nodes in a row.
#[derive(Clone, Copy)]
pub struct Triple {
    pub x: usize,
    pub y: usize,
    pub z: usize,
}

// The least node to which the level falls from `x`.
fn first_fall(edges: &Square, levels: &[u32], x: usize) -> Option<usize>
    requires x { x < edges.now.size }
    requires size { length levels.now ≡ edges.now.size }
    ensures found { IfSome result (λ y. FallsFirst edges.now levels.now x y) }
    ensures none { IfNone result ((y : ℕ) → ¬ FallsIn edges.now levels.now x y) }
{
    let mut start = 0;
    while let Some(y) = edges.next(x, start) {
        if levels[y] < levels[x] {
            return Some(y);
        }
        start = y + 1;
    }
    None
}

// The least edge along which the level falls.
fn least_fall(edges: &Square, levels: &[u32]) -> Option<Edge>
    requires { length levels.now ≡ edges.now.size }
    ensures found { IfSome result
        (λ pair. IsLeastFall (Joins edges.now) (level_in levels.now) pair) }
    ensures none { IfNone result ((x y : ℕ) → ¬ FallsIn edges.now levels.now x y) }
{
    for x in 0..edges.size() {
        if let Some(y) = first_fall(edges, levels, x) {
            return Some(Edge { x, y });
        }
    }
    None
}

// The least node to which the level doesn't rise from `x` by way of `y`.
fn first_stay(vulnerable: &Square, levels: &[u32], x: usize, y: usize) -> Option<usize>
    requires x { x < vulnerable.now.size }
    requires y { y < vulnerable.now.size }
    requires size { length levels.now ≡ vulnerable.now.size }
    ensures found { IfSome result (λ z. StaysFirst vulnerable.now levels.now x y z) }
    ensures none { IfNone result ((z : ℕ) → ¬ StaysIn vulnerable.now levels.now x y z) }
{
    if vulnerable.get(x, y) {
        let mut start = 0;
        while let Some(z) = vulnerable.next(y, start) {
            if levels[z] <= levels[x] {
                return Some(z);
            }
            start = z + 1;
        }
    }
    None
}

// The lowest level that a vulnerable edge leads to from `y`.
fn lowest_behind(vulnerable: &Square, levels: &[u32], y: usize) -> Option<u32>
    requires y { y < vulnerable.now.size }
    requires size { length levels.now ≡ vulnerable.now.size }
    ensures found { IfSome result (λ lowest. IsLowestBehind vulnerable.now levels.now y lowest) }
    ensures none { IfNone result ((z : ℕ) → ¬ Joins vulnerable.now y z) }
{
    let mut lowest: Option<u32> = None;
    let mut start = 0;
    while let Some(z) = vulnerable.next(y, start) {
        if lowest.is_none_or(|level| levels[z] < level) {
            lowest = Some(levels[z]);
        }
        start = z + 1;
    }
    lowest
}

// The least node before `end` from which the level doesn't rise by way of `y`. No other node is
// asked for but one of the lowest level behind `y`.
fn first_stay_by(vulnerable: &Square, levels: &[u32], y: usize, end: usize) -> Option<usize>
    requires y { y < vulnerable.now.size }
    requires end { end ≤ vulnerable.now.size }
    requires size { length levels.now ≡ vulnerable.now.size }
    ensures found { IfSome result (λ x. (x < end) × StaysFirstBy vulnerable.now levels.now x y) }
    ensures none { IfNone result
        ((x z : ℕ) → x < end → ¬ StaysIn vulnerable.now levels.now x y z) }
{
    let lowest = lowest_behind(vulnerable, levels, y)?;
    for x in 0..end {
        if lowest <= levels[x] && vulnerable.get(x, y) {
            return Some(x);
        }
    }
    None
}

// The first of the least two vulnerable edges over which the level doesn't rise. A later node in
// their middle counts only where they begin at an earlier one.
fn least_first_edge(vulnerable: &Square, levels: &[u32]) -> Option<Edge>
    requires { length levels.now ≡ vulnerable.now.size }
    ensures found { IfSome result (λ pair. IsLeastFirstEdge vulnerable.now levels.now pair) }
    ensures none { IfNone result ((x y z : ℕ) → ¬ StaysIn vulnerable.now levels.now x y z) }
{
    let mut least = None;
    let mut end = vulnerable.size();
    for y in 0..vulnerable.size() {
        if let Some(x) = first_stay_by(vulnerable, levels, y, end) {
            least = Some(Edge { x, y });
            end = x;
        }
    }
    least
}

// The least two vulnerable edges over which the level doesn't rise.
fn least_stay(vulnerable: &Square, levels: &[u32]) -> Option<Triple>
    requires { length levels.now ≡ vulnerable.now.size }
    ensures found { IfSome result
        (λ triple. IsLeastStay (Joins vulnerable.now) (level_in levels.now) triple) }
    ensures none { IfNone result ((x y z : ℕ) → ¬ StaysIn vulnerable.now levels.now x y z) }
{
    let Edge { x, y } = least_first_edge(vulnerable, levels)?;
    let z = first_stay(vulnerable, levels, x, y)?;
    Some(Triple { x, y, z })
}

/// Whether the levels rise over the edges, or where they don't first.
pub fn check_levels(left: &EdgeTables, levels: &[u32]) -> Result<(), CertFault>
    requires edges { length levels.now ≡ left.now.edges.size }
    requires vulnerable { length levels.now ≡ left.now.vulnerable.size }
    ensures rise { OnOk result (RiseOver left.now levels.now) }
    ensures fault { IfErr result (λ fault. IsLevelFault
        (Joins left.now.edges) (Joins left.now.vulnerable) (level_in levels.now) fault) }
{
    if let Some(Edge { x, y }) = least_fall(&left.edges, levels) {
        return Err(CertFault::LevelFalls(x, y));
    }
    match least_stay(&left.vulnerable, levels) {
        Some(Triple { x, y, z }) => Err(CertFault::Dangerous(x, y, z)),
        None => Ok(()),
    }
}
