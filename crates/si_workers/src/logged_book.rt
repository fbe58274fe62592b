//! A book under a lock, with what is known of the states that it was in.
//!
//! No clause can name a value under a lock. So what a worker read in the book would be looked up
//! again when its instance ends, but for the list of all states that the book was in: it only
//! grows, and what a worker has seen of it stays true.

ghost use Rattle.std.specs.Prelude.{◌≡◌, [], IfErr, IfOk, OnOk};
ghost use Rattle.history_book.specs.TrueBook.{IsTrueBook};
ghost use Rattle.si_workers.specs.Freshness.{IsOfNoNumber};
ghost use Rattle.si_workers.specs.HandedIn.{IsCommitAnswer, IsEndAnswer};
ghost use Rattle.job_worker.specs.KnownStates.{AreRowsOf, AreRowsAt, IsFoundIn, IsValueAt, IsKnown};

use history_book::{
    BeginFault, Book, CommitFault, EndFault, NoSuchTicket, Receipt, ScanFault, Ticket, Unused,
};
use prog_run::Run;
use prog_tree::{Cell, Region, RowPieces};
use state_log::{Front, Head, Naming, Opened, Tells};
use std::marker::Model;
use std::sync::RwLock;

// No list of states is longer.
const MOST_STATES: u64 = 1 << 32;

/// The state of a book after a number of commits.
#[derive(Drop)]
pub(crate) struct StateAt<'b, 'a> {
    book: &'b Book<'a>,
    number: u64,
}

/// What it says.
pub(crate) struct Known;

impl<'b, 'a> Tells<StateAt<'b, 'a>> for Known {
    ghost use Rattle.history_book.specs.View.{state_in};

    ghost state = { λ at. state_in at.book.now at.number };
}

/// A book, and the states that it was in.
#[derive(Drop)]
pub(crate) struct LoggedBook<'a, J: Naming> {
    book: Book<'a>,
    head: Head<J>,
    front: Front<J>,
}

impl<'a, J: Naming> Model for LoggedBook<'a, J> {
    ghost use Rattle.std.specs.Coded.{codes};
    ghost use Rattle.prog_tree.specs.contracts.stmt.Block as block;
    ghost use Rattle.history_book.specs.View.{BookView};
    ghost use Rattle.si_workers.specs.KnownStates.{AreStatesOf};

    ghost Value = { BookView };

    ghost coded = { Prim.hlevel (codes, block.the_row.coded) };

    ghost view = { λ l. l.book };

    ghost invariant = { λ l. AreStatesOf l.book l.front };
}

impl<'a, J: Naming> LoggedBook<'a, J> {
    // A book, with an empty list, to which its first state is added.
    fn new(book: Book<'a>, head: Head<J>, front: Front<J>) -> Self
        requires { front ≡ [] }
    {
        let mut logged = LoggedBook { book, head, front };
        logged.add_state();
        logged
    }

    // Adds a state to the list, where it has not all of them.
    fn add_state(&mut self)
        ensures { self.new ≡ self.old }
    {
        let number = self.front.len();
        if number > self.book.commits() || number >= MOST_STATES {
            return;
        }
        let newest = StateAt {
            book: &self.book,
            number,
        };
        let longer = self
            .front
            .with_state::<StateAt<'_, 'a>, Known>(&self.head, &newest);
        if let Ok(front) = longer {
            self.front = front;
        }
    }

    /// The list of its states so far.
    pub(crate) fn front(&self) -> Front<J> {
        self.front.again()
    }

    /// `Book::begin`.
    pub(crate) fn begin(&mut self, program: usize, args: &[i64]) -> Result<Ticket, BeginFault>
        ensures { IfErr result IsOfNoNumber }
    {
        self.book.begin(program, args)
    }

    /// `Book::get`, for a caller that knows the state that is read.
    pub(crate) fn get(
        &self,
        front: &Front<J>,
        ticket: &Ticket,
        cell: &Cell,
    ) -> Result<Option<i64>, NoSuchTicket>
        ensures held { IfOk result (IsValueAt front.now ticket.now.start cell.now) }
        ensures seen { OnOk result (IsKnown front.now ticket.now.start) }
    {
        if !front.agrees_at(&self.front, ticket.start()) {
            return Err(NoSuchTicket);
        }
        self.book.get(ticket, cell)
    }

    /// `Book::scan_pieces`, for a caller that knows the state that is read.
    pub(crate) fn scan(
        &self,
        front: &Front<J>,
        ticket: &Ticket,
        region: &Region,
    ) -> Result<RowPieces, ScanFault>
        ensures rows { IfOk result (AreRowsOf region.now) }
        ensures held { IfOk result (AreRowsAt front.now ticket.now.start region.now) }
        ensures seen { OnOk result (IsKnown front.now ticket.now.start) }
    {
        if !front.agrees_at(&self.front, ticket.start()) {
            return Err(ScanFault::NoSuchTicket);
        }
        self.book.scan_pieces(ticket, region)
    }

    /// `Book::commit_found`, for a caller that knows the state that the run read.
    pub(crate) fn commit(
        &mut self,
        front: &Front<J>,
        ticket: Ticket,
        run: Run<'a>,
    ) -> Result<Receipt, CommitFault<'a>>
        requires { IsFoundIn front.now ticket.start run }
        ensures { IsCommitAnswer ticket run.entry result }
    {
        self.book.prepare_looks(&run);
        if !front.agrees_at(&self.front, ticket.start()) {
            return Err(CommitFault::NoSuchTicket(Unused { ticket, run }));
        }
        let answer = self.book.commit_found(ticket, run);
        self.add_state();
        answer
    }

    /// `Book::end_found`, for a caller that knows the state that the run read.
    pub(crate) fn end(
        &mut self,
        front: &Front<J>,
        ticket: Ticket,
        run: Run<'a>,
    ) -> Result<(), EndFault<'a>>
        requires { IsFoundIn front.now ticket.start run }
        ensures { IsEndAnswer ticket run.entry result }
    {
        if !front.agrees_at(&self.front, ticket.start()) {
            return Err(EndFault::NoSuchTicket(Unused { ticket, run }));
        }
        self.book.end_found(ticket, run)
    }

    /// `Book::withdraw`.
    pub(crate) fn withdraw(&mut self, ticket: Ticket) {
        let _ = self.book.withdraw(ticket);
    }

    /// `Book::vacuum`.
    pub(crate) fn vacuum(&mut self) {
        self.book.vacuum();
    }

    // The book.
    fn into_book(self) -> Book<'a>
        ensures { IsTrueBook result }
    {
        let LoggedBook { book, .. } = self;
        // What the book holds is true, as its type says.
        let _commits = book.commits();
        book
    }
}

/// A logged book that workers share.
#[derive(Drop)]
pub(crate) struct SharedLoggedBook<'a, J: Naming> {
    pub(crate) lock: RwLock<LoggedBook<'a, J>>,
}

impl<'a, J: Naming> SharedLoggedBook<'a, J> {
    /// Shares a book, with an empty list.
    pub(crate) fn new(book: Book<'a>, opened: Opened) -> Self
        requires { opened.seen.book ≡ J.book }
    {
        let (head, front) = opened.named::<J>();
        SharedLoggedBook {
            lock: RwLock::new(LoggedBook::new(book, head, front)),
        }
    }

    /// The book, once nobody shares it.
    pub(crate) fn into_book(self) -> Book<'a>
        ensures { IsTrueBook result }
    {
        let SharedLoggedBook { lock } = self;
        lock.into_inner().into_book()
    }
}
