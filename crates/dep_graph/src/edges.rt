//! The edges that the answers to all questions of a list of paths give.

ghost use Rattle.std.specs.Prelude.{◌≡◌, ◌<◌, ◌==◌, ◌&&◌, ◌||◌, ℕ, IfOk, Some, length, slice_get};
ghost use Rattle.order_facts.specs.Sets.{is_in};
ghost use Rattle.order_facts.specs.Square.{Enters};
ghost use Rattle.prog_paths.specs.StaticGraph.{StaticEdge, IsVulnerable};
ghost use Rattle.conflict_pairs.specs.Classed.{ClassAnswer};
ghost use Rattle.dep_graph.specs.Edges.{are_of, is_one_of, EntersAnswer, HaveNodes};
ghost use Rattle.dep_graph.specs.Edges.{IsTableOf};

use conflict_pairs::ClassTable;
use order_facts::{NodeSet, Square};
use prog_paths::{EdgeTables, Gives, gives_by};
use std::alloc::{AllocError, Global};

// Has a set have some nodes, and no others.
fn fill(set: &mut NodeSet, nodes: &[usize])
    ensures size { length set.new ≡ length set.old }
    ensures nodes { (n : ℕ) → n < length set.old → is_in set.new n ≡ is_one_of nodes.now n }
{
    set.clear();
    for node in nodes {
        if *node < set.size() {
            set.insert(*node);
        }
    }
}

// Joins each of some nodes to each node of a set.
fn join_to_set(table: &mut Square, nodes: &[usize], set: &NodeSet)
    requires { length set.now ≡ table.old.size }
    ensures { Enters table.old table.new (λ x y. is_one_of nodes.now x && is_in set.now y) }
{
    for node in nodes {
        if *node < table.size() {
            table.join_set(*node, set);
        }
    }
}

// Joins a node to another one.
fn join_one(table: &mut Square, x: usize, y: usize)
    ensures { Enters table.old table.new (λ i j. (x == i) && (y == j)) }
{
    if x < table.size() && y < table.size() {
        table.raise(x, y);
    }
}

// Joins a node to each of others.
fn join_each(table: &mut Square, x: usize, others: &[usize])
    ensures { Enters table.old table.new (λ i j. (x == i) && is_one_of others.now j) }
{
    for y in others {
        join_one(table, x, *y);
    }
}

// Joins each of some nodes to another one.
fn join_each_to(table: &mut Square, nodes: &[usize], y: usize)
    ensures { Enters table.old table.new (λ i j. is_one_of nodes.now i && (y == j)) }
{
    for x in nodes {
        join_one(table, *x, y);
    }
}

// Joins each of some nodes to each of others where that is given. The others are put into the set,
// but where there is one node on a side: a set is filled to be joined to several, and for one bit
// it is not worth its while.
fn join_given(
    is_given: bool,
    table: &mut Square,
    set: &mut NodeSet,
    firsts: &[usize],
    seconds: &[usize],
)
    requires { length set.old ≡ table.old.size }
    ensures joined { Enters table.old table.new
        (λ x y. is_given && are_of firsts.now seconds.now x y) }
    ensures size { length set.new ≡ length set.old }
{
    if !is_given {
        return;
    }
    match (firsts, seconds) {
        ([x], _) => join_each(table, *x, seconds),
        (_, [y]) => join_each_to(table, firsts, *y),
        _ => {
            fill(set, seconds);
            join_to_set(table, firsts, set);
        }
    }
}

// Enters what is given from each of some nodes to each of others.
fn enter_given(
    tables: &mut EdgeTables,
    set: &mut NodeSet,
    given: Gives,
    firsts: &[usize],
    seconds: &[usize],
)
    requires { HaveNodes tables.old (length set.old) }
    ensures edges { Enters tables.old.edges tables.new.edges (λ x y.
        (given.forward && are_of firsts.now seconds.now x y)
        || (given.backward && are_of seconds.now firsts.now x y)) }
    ensures vulnerable { Enters tables.old.vulnerable tables.new.vulnerable
        (λ x y. given.vulnerable && are_of firsts.now seconds.now x y) }
    ensures size { length set.new ≡ length set.old }
{
    join_given(given.forward, &mut tables.edges, set, firsts, seconds);
    join_given(given.backward, &mut tables.edges, set, seconds, firsts);
    join_given(
        given.vulnerable,
        &mut tables.vulnerable,
        set,
        firsts,
        seconds,
    );
}

// Enters what the pair of classes of a number gives: the same for each node of the first and each
// of the second. Accesses that never meet give nothing.
fn enter_answer(tables: &mut EdgeTables, set: &mut NodeSet, table: &ClassTable<'_>, n: usize)
    requires number { n < length table.now.answers }
    requires nodes { HaveNodes tables.old (length set.old) }
    ensures entered { (e : ClassAnswer) → slice_get table.now.answers n ≡ Some e
        → EntersAnswer tables.old tables.new e }
    ensures size { length set.new ≡ length set.old }
{
    let verdict = table.verdict(n);
    if !verdict.can_meet() {
        return;
    }
    let (mine, theirs) = table.kinds(n);
    let given = gives_by(mine, theirs, verdict.can_meet(), verdict.is_exposed());
    let firsts = table.first_nodes(n);
    let seconds = table.second_nodes(n);
    enter_given(tables, set, given, firsts, seconds);
}

/// The edges that the answers to all questions give.
pub fn edges_of(alloc: Global, table: &ClassTable<'_>) -> Result<EdgeTables, AllocError>
    ensures edges { IfOk result (λ e. IsTableOf e.edges (length table.now.paths)
        (StaticEdge table.now.paths)) }
    ensures vulnerable { IfOk result (λ e. IsTableOf e.vulnerable (length table.now.paths)
        (IsVulnerable table.now.paths)) }
{
    let nodes = table.paths().len();
    let mut tables = EdgeTables::new(alloc, nodes)?;
    let mut set = NodeSet::new(alloc, nodes)?;
    for n in 0..table.len() {
        enter_answer(&mut tables, &mut set, table, n);
    }
    Ok(tables)
}
