//! Events on a robust set, told by hand, and the laws of such sets that stand as functions.

use crate::sets::{LOOK, REGISTERS, SET, cell, robust};
use history_book::{Book, HistoryRow};
use prog_tree::{Rows, Sequence};
use robust_cert::RobustSet;
use si_engine::{
    Event, Outcome, concurrent_dependencies_are_vulnerable, cycles_are_dangerous,
    cycles_end_in_two_missed_changes, dependencies_are_static_edges,
    grow_tables_gain_each_row_once, instances_follow_nodes, order_of, run_robust,
    safe_sets_have_no_cycle, states_have_i64_rows,
};
use std::alloc::{AllocError, Global};
use std::process::Abort;
use std::test::Fail;

/// What is asked of the engine, as plain data.
#[derive(Clone, Copy)]
enum Asked {
    /// A program and its arguments.
    Begin(usize, &'static [i64]),
    Step(usize),
    Commit(usize),
}

/// `Set(1, 5)` commits beside a `Look(1)`, which has to stand before it: it saw no row.
const ASKED: [Asked; 8] = [
    Asked::Begin(SET, &[1, 5]),
    Asked::Begin(LOOK, &[1]),
    Asked::Step(0),
    Asked::Step(0),
    Asked::Commit(0),
    Asked::Step(1),
    Asked::Step(1),
    Asked::Commit(1),
];

fn begin(alloc: Global, program: usize, args: &[i64]) -> Result<Event, AllocError> {
    let args = Sequence::from_slice(alloc, args)?;
    Ok(Event::Begin { program, args })
}

fn event(alloc: Global, asked: &Asked) -> Result<Event, AllocError> {
    match asked {
        Asked::Begin(program, args) => begin(alloc, *program, args),
        Asked::Step(number) => Ok(Event::Step(*number)),
        Asked::Commit(number) => Ok(Event::Commit(*number)),
    }
}

fn events(alloc: Global) -> Result<Vec<Event>, AllocError> {
    let mut events = Vec::new(alloc);
    for asked in &ASKED {
        events.push(event(alloc, asked)?)?;
    }
    Ok(events)
}

fn is_ordered(outcome: &Outcome) -> bool {
    outcome.replies.len() == 8
        && outcome.committed.as_slice() == [0, 1].as_slice()
        && outcome.order.as_slice() == [2, 1].as_slice()
        && outcome.table.as_slice() == [(cell(1), 5)].as_slice()
}

/// Whether the events come to that.
fn are_ordered(alloc: Global, set: &RobustSet, events: &[Event]) -> Result<bool, AllocError> {
    let outcome = run_robust(alloc, set, Rows::new(alloc), events)?;
    let is_so = is_ordered(&outcome);
    drop(outcome);
    Ok(is_so)
}

#[test]
fn commits_of_a_robust_set_have_an_order(rt: HostRuntime) -> Result<(), Fail> {
    let events = events(rt.alloc())?;
    let set = robust(rt.alloc(), &REGISTERS)?;
    let ordered = are_ordered(rt.alloc(), &set, &events);
    drop(set);
    drop(events);
    assert!(rt; ordered?);
    Ok(())
}

fn row_of(
    alloc: Global,
    program: usize,
    args: &[i64],
    replies: &[i64],
) -> Result<HistoryRow, AllocError> {
    Ok(HistoryRow {
        program,
        args: Sequence::from_slice(alloc, args)?,
        start: 0,
        replies: Sequence::from_slice(alloc, replies)?,
    })
}

/// The same commits as records: the program, its arguments and its replies.
const RECORDS: [(usize, &[i64], &[i64]); 2] = [(SET, &[1, 5], &[]), (LOOK, &[1], &[-1])];

fn records(alloc: Global) -> Result<Vec<HistoryRow>, AllocError> {
    let mut records = Vec::new(alloc);
    for (program, args, replies) in &RECORDS {
        records.push(row_of(alloc, *program, args, replies)?)?;
    }
    Ok(records)
}

/// The order of the commits of a book of records.
fn order_in(
    rt: &impl Abort,
    alloc: Global,
    set: &RobustSet,
    records: Vec<HistoryRow>,
) -> Vec<usize> {
    let book = Book::audit(alloc, set.set(), Rows::new(alloc), records).expect(rt, "a book");
    let order = order_of(&book).expect(rt, "memory");
    drop(book);
    order
}

#[test]
fn a_book_of_a_robust_set_has_an_order(rt: HostRuntime) -> Result<(), Fail> {
    let set = robust(rt.alloc(), &REGISTERS)?;
    let records = records(rt.alloc()).expect(&rt, "memory");
    let order = order_in(&rt, rt.alloc(), &set, records);
    drop(set);
    assert!(rt; order.as_slice() == [2, 1].as_slice());
    Ok(())
}

#[test]
fn laws_of_histories_and_graphs_are_called() {
    instances_follow_nodes();
    dependencies_are_static_edges();
    concurrent_dependencies_are_vulnerable();
    states_have_i64_rows();
    grow_tables_gain_each_row_once();
}

#[test]
fn laws_of_cycles_are_called() {
    cycles_end_in_two_missed_changes();
    cycles_are_dangerous();
    safe_sets_have_no_cycle();
}
