//! How many steps lie between each node and one of them, found round by round.

ghost use Rattle.std.specs.Prelude.{◌≡◌, ◌↔◌, ◌<◌, length, IfOk, IsTrue};
ghost use Rattle.dep_graph.specs.Distances.{LeadsToKnown, IsNextDistance, AreNextDistances};
ghost use Rattle.dep_graph.specs.Distances.{KnowsWithin};

use order_facts::Square;
use std::alloc::{AllocError, Global};

// Whether an edge leads from the node to one of known distance.
fn leads_to_known(edges: &Square, distances: &[Option<usize>], node: usize) -> bool
    requires node { node < edges.now.size }
    requires size { length distances.now ≡ edges.now.size }
    ensures { IsTrue result ↔ LeadsToKnown edges.now distances.now node }
{
    let mut start = 0;
    while let Some(next) = edges.next(node, start) {
        if distances[next].is_some() {
            return true;
        }
        start = next + 1;
    }
    false
}

// The node's distance after one more round, in which what leads to a known one becomes known.
fn next_distance(
    edges: &Square,
    distances: &[Option<usize>],
    node: usize,
    round: usize,
) -> Option<usize>
    requires node { node < edges.now.size }
    requires size { length distances.now ≡ edges.now.size }
    ensures { IsNextDistance edges.now distances.now round node result }
{
    let distance = distances[node];
    if distance.is_none() && leads_to_known(edges, distances, node) {
        return Some(round);
    }
    distance
}

/// The distances after one more round.
pub fn next_distances(
    alloc: Global,
    edges: &Square,
    distances: &[Option<usize>],
    round: usize,
) -> Result<Vec<Option<usize>>, AllocError>
    requires { length distances.now ≡ edges.now.size }
    ensures { IfOk result (λ next. AreNextDistances edges.now distances.now round next.items) }
{
    let mut next = Vec::with_capacity(alloc, distances.len())?;
    for node in 0..distances.len() {
        next.push(next_distance(edges, distances, node, round))?;
    }
    Ok(next)
}

/// The distances before the first round: the end's alone is known.
pub fn first_distances(
    alloc: Global,
    edges: &Square,
    end: usize,
) -> Result<Vec<Option<usize>>, AllocError>
    requires { end < edges.now.size }
    ensures { IfOk result (λ distances. KnowsWithin edges.now end distances.items 0) }
{
    let mut distances = vec![in alloc; None; edges.size()]?;
    distances[end] = Some(0);
    Ok(distances)
}
