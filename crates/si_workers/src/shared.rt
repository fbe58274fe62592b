//! A book that threads share.

ghost use Rattle.std.specs.Prelude.{◌≡◌, IfErr, IfOk};
ghost use Rattle.history_book.specs.TrueBook.{IsTrueBook};
ghost use Rattle.si_workers.specs.Freshness.{IsAtNumber, IsBeginAfter, IsFresh, IsOfNoNumber};
ghost use Rattle.si_workers.specs.HandedIn.{IsCommitAnswer, IsEndAnswer};
ghost use Rattle.job_worker.specs.KnownStates.{AreRowsOf};

use crate::fault::BeginAfterFault;
use crate::lock::{reading, writing};
use history_book::{
    BeginFault, Book, CommitFault, EndFault, NoSuchTicket, Receipt, ScanFault, Ticket,
};
use prog_run::Run;
use prog_tree::{Cell, Region, Sequence};
use std::sync::{RwLock, Wait};

/// A book under one lock, which reads share and each other call has alone. Whenever the lock is
/// taken, its value is a book. Each call takes the lock, makes the call of `Book` that it names,
/// and lets go; a commit makes ready for looks before, and `begin_after` may withdraw what it began.
/// No clause can name a value under a lock, so what a call does to the book is said by the contract
/// of `Book`, and here only what holds of its arguments and its result.
#[derive(Drop)]
pub struct SharedBook<'a> {
    lock: RwLock<Book<'a>>,
}

// Begins an instance that has to see a receipt's commit. Where the book has fewer commits, it is
// withdrawn again.
pub(crate) fn begin_seeing<'a>(
    book: &mut Book<'a>,
    receipt: &Receipt,
    program: usize,
    args: &[i64],
) -> Result<Ticket, BeginAfterFault>
    ensures fresh { IsFresh receipt.now result }
    ensures step { IsBeginAfter book.old book.new program args.now result }
{
    let commits = book.commits();
    let ticket = match book.begin(program, args) {
        Ok(ticket) => ticket,
        Err(fault) => return Err(BeginAfterFault::Refused(fault)),
    };
    if commits < receipt.number() {
        let Ok(()) = book.withdraw(ticket) else {
            unreachable!()
        };
        return Err(BeginAfterFault::Behind { commits });
    }
    Ok(ticket)
}

// Each call is made by a function on the book itself, where its clause is proved: behind a guard a
// proof knows only that the value is a book.

fn begin_newest(book: &mut Book<'_>, program: usize, args: &[i64]) -> Result<Ticket, BeginFault>
    ensures { IfErr result IsOfNoNumber }
{
    book.begin(program, args)
}

fn begin_there(
    book: &mut Book<'_>,
    start: u64,
    program: usize,
    args: &[i64],
) -> Result<Ticket, BeginFault>
    ensures { IsAtNumber start result }
{
    book.begin_at(start, program, args)
}

fn rows_there(
    book: &Book<'_>,
    ticket: &Ticket,
    region: &Region,
) -> Result<Sequence<(Cell, i64)>, ScanFault>
    ensures { IfOk result (AreRowsOf region.now) }
{
    book.scan(ticket, region)
}

fn commit_there<'a>(
    book: &mut Book<'a>,
    ticket: Ticket,
    run: Run<'a>,
) -> Result<Receipt, CommitFault<'a>>
    ensures { IsCommitAnswer ticket run.entry result }
{
    book.prepare_looks(&run);
    book.commit(ticket, run)
}

fn end_there<'a>(book: &mut Book<'a>, ticket: Ticket, run: Run<'a>) -> Result<(), EndFault<'a>>
    ensures { IsEndAnswer ticket run.entry result }
{
    book.end(ticket, run)
}

fn withdraw_there(book: &mut Book<'_>, ticket: Ticket) -> Result<(), Ticket>
    ensures { IfErr result (λ back. back ≡ ticket) }
{
    book.withdraw(ticket)
}

impl<'a> SharedBook<'a> {
    /// Shares a book.
    pub fn new(book: Book<'a>) -> Self {
        SharedBook {
            lock: RwLock::new(book),
        }
    }

    /// `Book::begin`.
    pub fn begin(&self, rt: &impl Wait, program: usize, args: &[i64]) -> Result<Ticket, BeginFault>
        ensures { IfErr result IsOfNoNumber }
    {
        let mut book = writing(&self.lock, rt);
        begin_newest(&mut book, program, args)
    }

    /// `Book::begin_at`.
    pub fn begin_at(
        &self,
        rt: &impl Wait,
        start: u64,
        program: usize,
        args: &[i64],
    ) -> Result<Ticket, BeginFault>
        ensures { IsAtNumber start result }
    {
        let mut book = writing(&self.lock, rt);
        begin_there(&mut book, start, program, args)
    }

    /// Begins an instance that sees the commit of a receipt. Where the book has fewer commits, the
    /// instance is withdrawn again, under the same lock.
    pub fn begin_after(
        &self,
        rt: &impl Wait,
        receipt: &Receipt,
        program: usize,
        args: &[i64],
    ) -> Result<Ticket, BeginAfterFault>
        ensures { IsFresh receipt.now result }
    {
        let mut book = writing(&self.lock, rt);
        begin_seeing(&mut book, receipt, program, args)
    }

    /// `Book::get`.
    pub fn get(
        &self,
        rt: &impl Wait,
        ticket: &Ticket,
        cell: &Cell,
    ) -> Result<Option<i64>, NoSuchTicket> {
        reading(&self.lock, rt).get(ticket, cell)
    }

    /// `Book::scan`.
    pub fn scan(
        &self,
        rt: &impl Wait,
        ticket: &Ticket,
        region: &Region,
    ) -> Result<Sequence<(Cell, i64)>, ScanFault>
        ensures { IfOk result (AreRowsOf region.now) }
    {
        let book = reading(&self.lock, rt);
        rows_there(&book, ticket, region)
    }

    /// `Book::commit`.
    pub fn commit(
        &self,
        rt: &impl Wait,
        ticket: Ticket,
        run: Run<'a>,
    ) -> Result<Receipt, CommitFault<'a>>
        ensures { IsCommitAnswer ticket run.entry result }
    {
        let mut book = writing(&self.lock, rt);
        commit_there(&mut book, ticket, run)
    }

    /// `Book::end`.
    pub fn end(&self, rt: &impl Wait, ticket: Ticket, run: Run<'a>) -> Result<(), EndFault<'a>>
        ensures { IsEndAnswer ticket run.entry result }
    {
        let mut book = writing(&self.lock, rt);
        end_there(&mut book, ticket, run)
    }

    /// `Book::withdraw`.
    pub fn withdraw(&self, rt: &impl Wait, ticket: Ticket) -> Result<(), Ticket>
        ensures { IfErr result (λ back. back ≡ ticket) }
    {
        let mut book = writing(&self.lock, rt);
        withdraw_there(&mut book, ticket)
    }

    /// `Book::vacuum`.
    pub fn vacuum(&self, rt: &impl Wait) -> u64 {
        writing(&self.lock, rt).vacuum()
    }

    /// The book, once nobody shares it.
    pub fn into_book(self) -> Book<'a>
        ensures { IsTrueBook result }
    {
        let SharedBook { lock } = self;
        let book = lock.into_inner();
        // What the book holds is true, as its type says.
        let _commits = book.commits();
        book
    }
}
