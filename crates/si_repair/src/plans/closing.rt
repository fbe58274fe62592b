//! Which programs close a dangerous structure.
ghost use Rattle.std.specs.Prelude.{◌≡◌, ◌<◌, OnOk, IfOk};
ghost use Rattle.si_repair.specs.Planning.{first_pair, second_pair, AddsTriples, ClosesBehind};
ghost use Rattle.si_repair.specs.Planning.{ClosesFrom, AreClosing};

use crate::plans::nodes::{ProgramNodes, begins_in};
use dep_graph::Graph;
use prog_check::Path;
use repair_laws::Pair;
use std::alloc::{AllocError, Global};

/// Three programs in a row.
#[derive(Clone, Copy)]
pub struct ProgramTriple {
    pub first: usize,
    pub second: usize,
    pub third: usize,
}

impl ProgramTriple {
    pub fn first_pair(self) -> Pair
        ensures { result ≡ first_pair self }
    {
        Pair {
            from: self.first,
            to: self.second,
        }
    }

    pub fn second_pair(self) -> Pair
        ensures { result ≡ second_pair self }
    {
        Pair {
            from: self.second,
            to: self.third,
        }
    }
}

// Adds the triples that close a structure behind a pair of programs.
fn push_behind(
    graph: &Graph<'_>,
    nodes: &ProgramNodes<'_>,
    pair: Pair,
    triples: &mut Vec<ProgramTriple>,
) -> Result<(), AllocError>
    requires graph { graph.now ≡ nodes.now.paths }
    requires from { pair.from < nodes.now.programs }
    requires to { pair.to < nodes.now.programs }
    ensures { OnOk result (AddsTriples triples.old.items triples.new.items
        (ClosesBehind nodes.now.paths pair nodes.now.programs)) }
{
    let firsts = nodes.of(pair.from);
    let seconds = nodes.of(pair.to);
    for third in 0..nodes.programs() {
        let thirds = nodes.of(third);
        if begins_in(graph, firsts, seconds, thirds) {
            triples.push(ProgramTriple {
                first: pair.from,
                second: pair.to,
                third,
            })?;
        }
    }
    Ok(())
}

// Adds the triples that close a structure and begin with a program.
fn push_from(
    graph: &Graph<'_>,
    nodes: &ProgramNodes<'_>,
    first: usize,
    triples: &mut Vec<ProgramTriple>,
) -> Result<(), AllocError>
    requires graph { graph.now ≡ nodes.now.paths }
    requires first { first < nodes.now.programs }
    ensures { OnOk result (AddsTriples triples.old.items triples.new.items
        (ClosesFrom nodes.now.paths first nodes.now.programs nodes.now.programs)) }
{
    for second in 0..nodes.programs() {
        let pair = Pair {
            from: first,
            to: second,
        };
        push_behind(graph, nodes, pair, triples)?;
    }
    Ok(())
}

/// All programs in a row, of so many, that close a dangerous structure.
pub fn closing_triples(
    alloc: Global,
    paths: &[Path],
    graph: &Graph<'_>,
    programs: usize,
) -> Result<Vec<ProgramTriple>, AllocError>
    requires { graph.now ≡ paths.now }
    ensures { IfOk result (λ triples. AreClosing paths.now programs triples.items) }
{
    let nodes = ProgramNodes::new(alloc, paths, programs)?;
    let mut triples = Vec::new(alloc);
    for first in 0..programs {
        push_from(graph, &nodes, first, &mut triples)?;
    }
    Ok(triples)
}
