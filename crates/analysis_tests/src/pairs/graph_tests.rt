//! The least dangerous structures of sets, and their levels.

use crate::dangers::{DANGEROUS, Structure, is_structure};
use crate::examples::paths_of;
use crate::pairs::sets::{class_table_of, table_of};
use dep_graph::Graph;
use example_sets::{LEDGER, TRANSFER};
use prog_paths::Path;
use std::alloc::Global;
use std::process::Abort;
use std::test::Fail;

/// The graph of some paths.
fn graph_of<'a>(rt: &impl Abort, alloc: Global, paths: &'a [Path]) -> Graph<'a> {
    let table = class_table_of(rt, alloc, paths);
    let graph = Graph::of_classes(alloc, &table);
    drop(table);
    graph.expect(rt, "memory")
}

/// Asserts what the danger of a graph is.
fn check_danger(rt: &impl Abort, graph: &Graph, wanted: &Structure) {
    let found = graph.danger().expect(rt, "memory");
    let danger = found.expect(rt, "a danger");
    assert!(rt; is_structure(&danger, wanted));
    drop(danger);
}

/// Asserts what the danger of a set is.
fn check_dangerous(
    rt: &impl Abort,
    alloc: Global,
    text: &str,
    wanted: &Structure,
) -> Result<(), Fail> {
    let paths = paths_of(alloc, text)?;
    let graph = graph_of(rt, alloc, &paths);
    check_danger(rt, &graph, wanted);
    drop(graph);
    drop(paths);
    Ok(())
}

#[test]
fn dangerous_sets_have_a_danger(rt: HostRuntime) -> Result<(), Fail> {
    for (text, wanted) in &DANGEROUS {
        check_dangerous(&rt, rt.alloc(), *text, wanted)?;
    }
    Ok(())
}

/// Asserts what the levels of all nodes are.
fn check_levels(rt: &impl Abort, graph: &Graph, levels: &[usize]) {
    assert!(rt; graph.nodes() == levels.len());
    for (x, level) in levels.iter().enumerate() {
        assert!(rt; graph.level(x) == *level, "{x}");
    }
}

fn check_no_danger(rt: &impl Abort, graph: &Graph) {
    let found = graph.danger().expect(rt, "memory");
    assert!(rt; found.is_none());
}

/// Asserts that a set has no danger, and these levels.
fn check_orderly(rt: &impl Abort, alloc: Global, text: &str, levels: &[usize]) -> Result<(), Fail> {
    let paths = paths_of(alloc, text)?;
    let graph = graph_of(rt, alloc, &paths);
    check_no_danger(rt, &graph);
    check_levels(rt, &graph, levels);
    drop(graph);
    drop(paths);
    Ok(())
}

/// Sets without danger, and the levels of their nodes.
const LEVELS: [(&str, &[usize]); 2] = [(LEDGER, &[2, 3, 2]), (TRANSFER, &[1])];

#[test]
fn ledger_and_transfer_have_levels(rt: HostRuntime) -> Result<(), Fail> {
    for (text, levels) in LEVELS {
        check_orderly(&rt, rt.alloc(), text, levels)?;
    }
    Ok(())
}

fn check_reached(rt: &impl Abort, graph: &Graph) {
    assert!(rt; graph.nodes() == 3);
    let reached = [
        graph.reaches(0, 0),
        graph.reaches(2, 1),
        graph.reaches(1, 2),
    ];
    assert!(rt; reached == [true, true, false]);
}

fn check_edges(rt: &impl Abort, graph: &Graph) {
    assert!(rt; graph.nodes() == 3);
    let joined = [graph.edge(2, 0), graph.edge(0, 1)];
    let apart = [graph.edge(0, 0), graph.edge(2, 1)];
    assert!(rt; [joined, apart] == [[true; 2], [false; 2]]);
}

fn check_vulnerable(rt: &impl Abort, graph: &Graph) {
    assert!(rt; graph.nodes() == 3);
    let vulnerable = [
        graph.vulnerable(2, 0),
        graph.vulnerable(0, 1),
        graph.vulnerable(0, 2),
    ];
    assert!(rt; vulnerable == [true, true, false]);
}

/// The graph of the table that lists the questions of some paths.
fn listed_graph_of<'a>(rt: &impl Abort, alloc: Global, paths: &'a [Path]) -> Graph<'a> {
    let table = table_of(rt, alloc, paths);
    let graph = Graph::build(alloc, &table);
    drop(table);
    graph.expect(rt, "memory")
}

fn check_ledger(rt: &impl Abort, alloc: Global, paths: &[Path]) {
    let graph = listed_graph_of(rt, alloc, paths);
    check_reached(rt, &graph);
    check_edges(rt, &graph);
    check_vulnerable(rt, &graph);
    drop(graph);
}

#[test]
fn a_total_reaches_a_close_by_way_of_a_post(rt: HostRuntime) -> Result<(), Fail> {
    let paths = paths_of(rt.alloc(), LEDGER)?;
    check_ledger(&rt, rt.alloc(), &paths);
    drop(paths);
    Ok(())
}
