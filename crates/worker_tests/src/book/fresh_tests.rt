//! Begins that have to see a commit.

use crate::sets::{LOOK, REGISTERS, SET, cell, rows_of};
use example_sets::set_of;
use history_book::{Book, Receipt, Ticket};
use prog_check::ProgramSet;
use prog_run::Run;
use si_workers::{BeginAfterFault, SharedBook};
use std::alloc::Global;
use std::process::Abort;
use std::sync::Wait;
use std::test::Fail;

// A shared book in which `t[1]` is 0.
fn open<'a>(rt: &impl Abort, alloc: Global, set: &'a ProgramSet) -> SharedBook<'a> {
    let rows = rows_of(alloc, &[(1, 0)]).expect(rt, "memory");
    SharedBook::new(Book::open(alloc, set, rows).expect(rt, "memory"))
}

// A run of `Set(1, 5)`, at its end.
fn run<'a>(rt: &impl Abort, alloc: Global, set: &'a ProgramSet) -> Run<'a> {
    let mut run = Run::new(alloc, set, SET, &[1, 5]).expect(rt, "a run");
    run.advance().expect(rt, "a step");
    run.advance().expect(rt, "a step");
    run
}

// Begins `Set(1, 5)` and commits it.
fn set_five<'a, R: Abort + Wait>(
    rt: &R,
    alloc: Global,
    set: &'a ProgramSet,
    shared: &SharedBook<'a>,
) -> Receipt {
    let run = run(rt, alloc, set);
    let ticket = shared.begin(rt, SET, &[1, 5]).expect(rt, "a ticket");
    shared.commit(rt, ticket, run).expect(rt, "a commit")
}

// The start of a look that is begun after a receipt, and what it finds.
fn look_after(
    rt: &impl Wait,
    shared: &SharedBook<'_>,
    receipt: &Receipt,
) -> Result<(u64, Option<i64>), BeginAfterFault> {
    let ticket = shared.begin_after(rt, receipt, LOOK, &[1])?;
    let held = shared.get(rt, &ticket, &cell(1)).unwrap_or(None);
    Ok((ticket.start(), held))
}

// How many commits the book has, and what `t[1]` holds behind them.
fn kept(rt: &impl Abort, book: &Book<'_>) -> (u64, Option<i64>) {
    let rows = book.table().expect(rt, "memory");
    (book.commits(), rows.get(&cell(1)))
}

// What a look finds that is begun after a commit.
fn look_after_five<'a, R: Abort + Wait>(
    rt: &R,
    alloc: Global,
    set: &'a ProgramSet,
    shared: &SharedBook<'a>,
) -> Result<(u64, Option<i64>), BeginAfterFault> {
    let receipt = set_five(rt, alloc, set, shared);
    let looked = look_after(rt, shared, &receipt);
    drop(receipt);
    looked
}

// The look has to see the commit, and so has the book.
fn check_fresh<R: Abort + Wait>(rt: &R, alloc: Global, set: &ProgramSet) {
    let shared = open(rt, alloc, set);
    let looked = look_after_five(rt, alloc, set, &shared);
    let book = shared.into_book();
    let kept = kept(rt, &book);
    drop(book);
    assert!(rt; looked == Ok((1, Some(5))));
    assert!(rt; kept == (1, Some(5)));
}

#[test]
fn a_begin_after_a_receipt_sees_its_commit(rt: HostRuntime) -> Result<(), Fail> {
    let set = set_of(rt.alloc(), REGISTERS.text)?;
    check_fresh(&rt, rt.alloc(), &set);
    drop(set);
    Ok(())
}

// The receipt of the third commit of a book.
fn third_receipt<R: Abort + Wait>(rt: &R, alloc: Global, set: &ProgramSet) -> Receipt {
    let shared = open(rt, alloc, set);
    set_five(rt, alloc, set, &shared);
    set_five(rt, alloc, set, &shared);
    let receipt = set_five(rt, alloc, set, &shared);
    drop(shared);
    receipt
}

// The ticket's instance alone has to hold the row that the book was opened with.
fn check_active(rt: &impl Abort, book: &mut Book<'_>, ticket: Ticket) {
    assert!(rt; book.vacuum() == 0);
    assert!(rt; book.withdraw(ticket).is_ok());
    assert!(rt; book.vacuum() == 1);
}

// A look is begun after a receipt of another book, which this one has to be behind; then there is
// a commit.
fn check_look<'a, R: Abort + Wait>(
    rt: &R,
    alloc: Global,
    set: &'a ProgramSet,
    shared: &SharedBook<'a>,
) {
    let receipt = third_receipt(rt, alloc, set);
    let looked = look_after(rt, shared, &receipt);
    drop(receipt);
    assert!(rt; looked == Err(BeginAfterFault::Behind { commits: 0 }));
    drop(set_five(rt, alloc, set, shared));
}

// A book without commits has to be behind a receipt of another, with the active instances as
// before.
fn check_behind<R: Abort + Wait>(rt: &R, alloc: Global, set: &ProgramSet) {
    let shared = open(rt, alloc, set);
    let ticket = shared.begin(rt, LOOK, &[1]).expect(rt, "a ticket");
    check_look(rt, alloc, set, &shared);
    let mut book = shared.into_book();
    check_active(rt, &mut book, ticket);
    drop(book);
}

#[test]
fn a_book_without_commits_is_behind_a_receipt_of_another(rt: HostRuntime) -> Result<(), Fail> {
    let set = set_of(rt.alloc(), REGISTERS.text)?;
    check_behind(&rt, rt.alloc(), &set);
    drop(set);
    Ok(())
}
