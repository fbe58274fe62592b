//! A shortest way from one node to another, and of these the least in node order.

ghost use Rattle.std.specs.Prelude.{◌≡◌, ℕ, ◌<◌, length, Some, IfOk};
ghost use Rattle.prog_paths.specs.StaticGraph.{Leads};
ghost use Rattle.order_facts.specs.Square.{Joins};
ghost use Rattle.dep_graph.specs.Ways.{IsLeastWay};
ghost use Rattle.dep_graph.specs.Distances.{distance_at, KnowsWithin, IsLeastNearer, StepsNearer};

use crate::distances::{first_distances, next_distances};
use order_facts::Square;
use std::alloc::{AllocError, Global};

// The least node that an edge leads to and that is so many steps from the end.
fn nearer_node(edges: &Square, distances: &[Option<usize>], node: usize, steps: usize) -> usize
    requires node { node < edges.now.size }
    requires size { length distances.now ≡ edges.now.size }
    requires some { (w : ℕ) × StepsNearer edges.now distances.now node steps w }
    ensures { IsLeastNearer edges.now distances.now node steps result }
{
    let mut start = 0;
    while let Some(next) = edges.next(node, start) {
        if distances[next] == Some(steps) {
            return next;
        }
        start = next + 1;
    }
    unreachable!()
}

// The way from a node of known distance, always on to the least node that is nearer.
fn walk(
    alloc: Global,
    edges: &Square,
    distances: &[Option<usize>],
    from: usize,
    steps: usize,
) -> Result<Vec<usize>, AllocError>
    requires size { length distances.now ≡ edges.now.size }
    requires known { distance_at distances.now from ≡ Some steps }
    requires exact { (end : ℕ) × (rounds : ℕ) × KnowsWithin edges.now end distances.now rounds }
    ensures { IfOk result (λ way. (end : ℕ) (rounds : ℕ)
        → KnowsWithin edges.now end distances.now rounds
        → IsLeastWay (Joins edges.now) from end way.items) }
{
    let mut way = Vec::new(alloc);
    way.push(from)?;
    let mut at = from;
    let mut left = steps;
    while left > 0 {
        left -= 1;
        at = nearer_node(edges, distances, at, left);
        way.push(at)?;
    }
    Ok(way)
}

/// A shortest way from a node to another that it leads to, the least of these in node order.
pub fn least_way(
    alloc: Global,
    edges: &Square,
    from: usize,
    end: usize,
) -> Result<Vec<usize>, AllocError>
    requires from { from < edges.now.size }
    requires end { end < edges.now.size }
    requires leads { Leads (Joins edges.now) from end }
    ensures { IfOk result (λ way. IsLeastWay (Joins edges.now) from end way.items) }
{
    let mut distances = first_distances(alloc, edges, end)?;
    let mut round = 0;
    loop {
        if let Some(steps) = distances[from] {
            return walk(alloc, edges, &distances, from, steps);
        }
        round += 1;
        distances = next_distances(alloc, edges, &distances, round)?;
    }
}
