//! Which node reaches which, by any number of edges.

ghost use Rattle.std.specs.Prelude.{IfOk};
ghost use Rattle.dep_graph.specs.Reaching.{IsReachOf, JoinsEachToItself};

use order_facts::Square;
use std::alloc::AllocError;

// The edges, with each node joined to itself too.
fn with_itself(edges: &Square) -> Result<Square, AllocError>
    ensures { IfOk result (λ s. JoinsEachToItself s edges.now) }
{
    let mut reach = edges.copy()?;
    for node in 0..edges.size() {
        reach.raise(node, node);
    }
    Ok(reach)
}

/// Which node reaches which: each itself, and whatever a walk along edges leads to.
pub fn close(edges: &Square) -> Result<Square, AllocError>
    ensures { IfOk result (λ reach. IsReachOf reach edges.now) }
{
    let mut reach = with_itself(edges)?;
    for through in 0..edges.size() {
        reach.join(through);
    }
    Ok(reach)
}
