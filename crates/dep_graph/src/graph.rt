//! The static graph of a list of paths.

ghost use Rattle.std.specs.Prelude.{◌≡◌, ◌↔◌, length, ◌<◌, ◌≤◌, true, IfOk, IfSome, IfNone, IsTrue};
ghost use Rattle.prog_paths.specs.StaticGraph.{StaticEdge, IsVulnerable, Leads, IsDangerous};
ghost use Rattle.dep_graph.specs.Counting.{IsCountOf};
ghost use Rattle.order_facts.specs.Square.{entry};
ghost use Rattle.dep_graph.specs.Danger.{IsLeastDanger};

use crate::closure::close;
use crate::danger::{Danger, first_exposure};
use crate::edges::edges_of;
use crate::least_way::least_way;
use crate::triple::least_triple;
use conflict_pairs::{ClassTable, PairTable};
use order_facts::Square;
use prog_check::Path;
use prog_paths::EdgeTables;
use prog_tree::Sequence;
use std::alloc::{AllocError, Global};
use std::marker::Model;

/// Which nodes of some paths are joined by an edge, by a vulnerable one, and which reach which.
#[derive(Drop)]
pub struct Graph<'a> {
    paths: &'a [Path],
    edges: Square,
    vulnerable: Square,
    reach: Square,
}

impl<'a> Model for Graph<'a> {
    ghost use Rattle.std.specs.Prelude.{List};
    ghost use Rattle.prog_check.specs.declared.path.Path.{Path};
    ghost use Rattle.dep_graph.specs.Edges.{IsGraphOf};

    ghost Value = { List Path };

    ghost view = { λ g. g.paths.now };

    ghost invariant = { λ g. IsGraphOf g.paths.now g.edges g.vulnerable g.reach };
}

// How many nodes are joined to the node.
fn reacher_count(matrix: &Square, to: usize) -> usize
    requires { to < matrix.now.size }
    ensures count { IsCountOf (λ from. entry matrix.now from to ≡ true) matrix.now.size result }
    ensures within { result ≤ matrix.now.size }
{
    let mut count = 0;
    for from in 0..matrix.size() {
        if matrix.get(from, to) {
            count += 1;
        }
    }
    count
}

impl<'a> Graph<'a> {
    /// The graph of the paths whose questions a table lists.
    pub fn build(alloc: Global, table: &PairTable<'a>) -> Result<Graph<'a>, AllocError>
        ensures { IfOk result (λ g. g ≡ table.now.paths) }
    {
        Graph::of_classes(alloc, table.classes())
    }

    /// The graph of the paths whose questions are answered class by class, before any is listed.
    pub fn of_classes(alloc: Global, table: &ClassTable<'a>) -> Result<Graph<'a>, AllocError>
        ensures { IfOk result (λ g. g ≡ table.now.paths) }
    {
        let EdgeTables { edges, vulnerable } = edges_of(alloc, table)?;
        let reach = close(&edges)?;
        Ok(Graph {
            paths: table.paths(),
            edges,
            vulnerable,
            reach,
        })
    }

    /// How many nodes it has.
    pub fn nodes(&self) -> usize
        ensures { result ≡ length self.now }
    {
        self.edges.size()
    }

    /// Whether instances of `x` and `y` can have a dependency, `x` before `y`.
    pub fn edge(&self, x: usize, y: usize) -> bool
        requires x { x < length self.now }
        requires y { y < length self.now }
        ensures { IsTrue result ↔ StaticEdge self.now x y }
    {
        self.edges.get(x, y)
    }

    /// Whether the edge from `x` to `y` is vulnerable.
    pub fn vulnerable(&self, x: usize, y: usize) -> bool
        requires x { x < length self.now }
        requires y { y < length self.now }
        ensures { IsTrue result ↔ IsVulnerable self.now x y }
    {
        self.vulnerable.get(x, y)
    }

    /// Whether `x` reaches `y`, by any number of edges.
    pub fn reaches(&self, x: usize, y: usize) -> bool
        requires x { x < length self.now }
        requires y { y < length self.now }
        ensures { IsTrue result ↔ Leads (StaticEdge self.now) x y }
    {
        self.reach.get(x, y)
    }

    /// How many nodes reach `x`, itself counted.
    pub fn level(&self, x: usize) -> usize
        requires { x < length self.now }
        ensures { IsCountOf (λ u. Leads (StaticEdge self.now) u x) (length self.now) result }
    {
        reacher_count(&self.reach, x)
    }

    /// The least dangerous structure, if there is one.
    pub fn danger(&self) -> Result<Option<Danger>, AllocError>
        ensures found { IfOk result (λ found. IfSome found (IsLeastDanger self.now)) }
        ensures none { IfOk result (λ found. IfNone found (¬ IsDangerous self.now)) }
    {
        let Some(triple) = least_triple(&self.vulnerable, &self.reach) else {
            return Ok(None);
        };
        let alloc = self.edges.allocator();
        let back = least_way(alloc, &self.edges, triple.z, triple.x)?;
        Ok(Some(Danger {
            x: triple.x,
            y: triple.y,
            z: triple.z,
            first: first_exposure(alloc, self.paths, triple.x, triple.y)?,
            second: first_exposure(alloc, self.paths, triple.y, triple.z)?,
            back: Sequence::from_vec(back),
        }))
    }
}
