//! Books of given rows, and what orders they have.

use crate::book::sets::rows_of;
use example_sets::set_of;
use history_book::{AnyFitFault, AuditFault, Book, HistoryRow, OrderFault, OrderReason};
use prog_check::ProgramSet;
use prog_tree::{Rows, Sequence};
use std::alloc::Global;
use std::process::Abort;
use std::test::Fail;

/// The program of a row, its arguments, its start and its replies.
pub type Record = (usize, &'static [i64], u64, &'static [i64]);

fn sequence(rt: &impl Abort, alloc: Global, numbers: &[i64]) -> Sequence<i64> {
    Sequence::from_slice(alloc, numbers).expect(rt, "memory")
}

fn row(rt: &impl Abort, alloc: Global, record: &Record) -> HistoryRow {
    let (program, args, start, replies) = *record;
    HistoryRow {
        program,
        args: sequence(rt, alloc, args),
        start,
        replies: sequence(rt, alloc, replies),
    }
}

fn history_rows(rt: &impl Abort, alloc: Global, records: &[Record]) -> Vec<HistoryRow> {
    let mut rows = Vec::new(alloc);
    for record in records {
        rows.push(row(rt, alloc, record)).expect(rt, "memory");
    }
    rows
}

/// What is wrong with records over a set whose tables hold nothing at first.
pub fn fault_of(
    rt: &impl Abort,
    alloc: Global,
    set: &ProgramSet,
    records: &[Record],
) -> Option<AuditFault> {
    let rows = history_rows(rt, alloc, records);
    Book::audit(alloc, set, Rows::new(alloc), rows).err()
}

/// The least serial order, or the cycle that forbids it.
#[derive(Clone, Copy)]
pub enum Least {
    Order(&'static [usize]),
    Cycle(&'static [usize]),
}

/// What the search for any order comes to.
#[derive(Clone, Copy)]
pub enum Any {
    Order(&'static [usize]),
    NoOrder,
    TooMany,
}

fn has_least(book: &Book<'_>, wanted: &Least) -> bool {
    match (book.serial_order(), wanted) {
        (Ok(order), Least::Order(wanted)) => order.as_slice() == *wanted,
        (Err(OrderFault::Cycle(cycle)), Least::Cycle(wanted)) => cycle.as_slice() == *wanted,
        _ => false,
    }
}

fn has_any(book: &Book<'_>, wanted: &Any) -> bool {
    match (book.any_fit(), wanted) {
        (Ok(Some(order)), Any::Order(wanted)) => order.as_slice() == *wanted,
        (Ok(None), Any::NoOrder) => true,
        (Err(AnyFitFault::TooMany), Any::TooMany) => true,
        _ => false,
    }
}

/// A book of records over a set, with the orders that it has to have.
#[derive(Clone, Copy)]
pub struct Ordered {
    pub set: &'static str,
    pub opening: &'static [(usize, i64, i64)],
    pub records: &'static [Record],
    pub least: Least,
    pub any: Any,
    pub fitting: &'static [&'static [usize]],
    pub unfitting: &'static [&'static [usize]],
}

fn check_fits(rt: &impl Abort, book: &Book<'_>, orders: &[&[usize]], wanted: bool) {
    for (number, order) in orders.iter().enumerate() {
        assert!(rt; book.fits(order) == Ok(wanted), "order {number}");
    }
}

fn check_book(rt: &impl Abort, book: &Book<'_>, wanted: &Ordered) {
    assert!(rt; has_least(book, &wanted.least));
    assert!(rt; has_any(book, &wanted.any));
    check_fits(rt, book, wanted.fitting, true);
    check_fits(rt, book, wanted.unfitting, false);
}

/// Asks the book of records for its orders.
pub fn check_orders(rt: &impl Abort, alloc: Global, wanted: &Ordered) -> Result<(), Fail> {
    let set = set_of(alloc, wanted.set)?;
    let opening = rows_of(rt, alloc, wanted.opening);
    let rows = history_rows(rt, alloc, wanted.records);
    let book = Book::audit(alloc, &set, opening, rows).expect(rt, "a book");
    check_book(rt, &book, wanted);
    drop(book);
    drop(set);
    Ok(())
}

/// A book of records over a set, and why the first of two of its commits has to stand before the
/// second.
#[derive(Clone, Copy)]
pub struct Reasoned {
    pub set: &'static str,
    pub opening: &'static [(usize, i64, i64)],
    pub records: &'static [Record],
    pub reasons: &'static [(u64, u64, Option<OrderReason>)],
}

/// Asks the book of records for the reasons.
pub fn check_reasons(rt: &impl Abort, alloc: Global, wanted: &Reasoned) -> Result<(), Fail> {
    let set = set_of(alloc, wanted.set)?;
    let opening = rows_of(rt, alloc, wanted.opening);
    let rows = history_rows(rt, alloc, wanted.records);
    let book = Book::audit(alloc, &set, opening, rows).expect(rt, "a book");
    for (first, second, reason) in wanted.reasons {
        assert!(rt;
            book.reason(*first, *second) == *reason,
            "{first} before {second}"
        );
    }
    drop(book);
    drop(set);
    Ok(())
}
