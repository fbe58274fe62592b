//! The nodes of programs, and whether a dangerous structure is among them.
ghost use Rattle.std.specs.Prelude.{◌≡◌, ◌↔◌, ◌<◌, length, All, IfOk, IsTrue};
ghost use Rattle.si_repair.specs.Planning.{AreNodesOf, EndsIn, GoesOnIn, BeginsIn};

use dep_graph::Graph;
use prog_check::Path;
use std::alloc::{AllocError, Global};
use std::marker::Model;

// The nodes that are paths of a program.
fn nodes_of(alloc: Global, paths: &[Path], program: usize) -> Result<Vec<usize>, AllocError>
    ensures { IfOk result (λ nodes. AreNodesOf paths.now program nodes.items) }
{
    let mut nodes = Vec::new(alloc);
    for (x, path) in paths.iter().enumerate() {
        if path.program == program {
            nodes.push(x)?;
        }
    }
    Ok(nodes)
}

/// The nodes of each of so many programs, listed once.
#[derive(Drop)]
pub struct ProgramNodes<'a> {
    paths: &'a [Path],
    // For each program its nodes.
    lists: Vec<Vec<usize>>,
}

impl<'a> Model for ProgramNodes<'a> {
    ghost use Rattle.std.specs.Prelude.{length};
    ghost use Rattle.si_repair.specs.Planning.{NodesBy, AreListedBy};

    ghost Value = { NodesBy };

    ghost view = { λ n. record { paths = n.paths.now; programs = length n.lists.items } };

    ghost invariant = { λ n. AreListedBy n.paths.now n.lists.items };
}

impl<'a> ProgramNodes<'a> {
    pub fn new(
        alloc: Global,
        paths: &'a [Path],
        programs: usize,
    ) -> Result<ProgramNodes<'a>, AllocError>
        ensures paths { IfOk result (λ nodes. nodes.paths ≡ paths.now) }
        ensures programs { IfOk result (λ nodes. nodes.programs ≡ programs) }
    {
        let mut lists = Vec::new(alloc);
        for program in 0..programs {
            let nodes = nodes_of(alloc, paths, program)?;
            lists.push(nodes)?;
        }
        Ok(ProgramNodes { paths, lists })
    }

    /// How many programs there are.
    pub fn programs(&self) -> usize
        ensures { result ≡ self.now.programs }
    {
        self.lists.len()
    }

    /// The nodes of a program.
    pub fn of(&self, program: usize) -> &[usize]
        requires { program < self.now.programs }
        ensures { AreNodesOf self.now.paths program result.now }
    {
        &self.lists[program]
    }
}

// Whether one of the nodes ends a dangerous structure behind `x` and `y`.
fn ends_in(graph: &Graph<'_>, x: usize, y: usize, thirds: &[usize]) -> bool
    requires x { x < length graph.now }
    requires y { y < length graph.now }
    requires thirds { All (λ z. z < length graph.now) thirds.now }
    ensures { IsTrue result ↔ EndsIn graph.now x y thirds.now }
{
    if !graph.vulnerable(x, y) {
        return false;
    }
    for z in thirds {
        if graph.vulnerable(y, *z) && graph.reaches(*z, x) {
            return true;
        }
    }
    false
}

// Whether a dangerous structure begins with `x` and has its other nodes among these.
fn goes_on_in(graph: &Graph<'_>, x: usize, seconds: &[usize], thirds: &[usize]) -> bool
    requires x { x < length graph.now }
    requires seconds { All (λ y. y < length graph.now) seconds.now }
    requires thirds { All (λ z. z < length graph.now) thirds.now }
    ensures { IsTrue result ↔ GoesOnIn graph.now x seconds.now thirds.now }
{
    for y in seconds {
        if ends_in(graph, x, *y, thirds) {
            return true;
        }
    }
    false
}

/// Whether a dangerous structure has its three nodes among these.
pub fn begins_in(graph: &Graph<'_>, firsts: &[usize], seconds: &[usize], thirds: &[usize]) -> bool
    requires firsts { All (λ x. x < length graph.now) firsts.now }
    requires seconds { All (λ y. y < length graph.now) seconds.now }
    requires thirds { All (λ z. z < length graph.now) thirds.now }
    ensures { IsTrue result ↔ BeginsIn graph.now firsts.now seconds.now thirds.now }
{
    for x in firsts {
        if goes_on_in(graph, *x, seconds, thirds) {
            return true;
        }
    }
    false
}
