//! A book that is shared or not, with the same calls.

use crate::book::answer::{Answer, Instance, commit_refused, end_refused};
use history_book::{BeginFault, Book, NoSuchTicket, ScanFault, Ticket};
use prog_run::Run;
use prog_tree::{Cell, Region, Sequence};
use si_workers::SharedBook;
use std::sync::Wait;

#[derive(Drop)]
pub enum Shelf<'a> {
    Alone(Book<'a>),
    Shared(SharedBook<'a>),
}

impl<'a> Shelf<'a> {
    pub fn begin(
        &mut self,
        rt: &impl Wait,
        program: usize,
        args: &[i64],
    ) -> Result<Ticket, BeginFault> {
        match self {
            Shelf::Alone(book) => book.begin(program, args),
            Shelf::Shared(book) => book.begin(rt, program, args),
        }
    }

    pub fn begin_at(
        &mut self,
        rt: &impl Wait,
        start: u64,
        program: usize,
        args: &[i64],
    ) -> Result<Ticket, BeginFault> {
        match self {
            Shelf::Alone(book) => book.begin_at(start, program, args),
            Shelf::Shared(book) => book.begin_at(rt, start, program, args),
        }
    }

    pub fn get(
        &self,
        rt: &impl Wait,
        ticket: &Ticket,
        cell: &Cell,
    ) -> Result<Option<i64>, NoSuchTicket> {
        match self {
            Shelf::Alone(book) => book.get(ticket, cell),
            Shelf::Shared(book) => book.get(rt, ticket, cell),
        }
    }

    pub fn scan(
        &self,
        rt: &impl Wait,
        ticket: &Ticket,
        region: &Region,
    ) -> Result<Sequence<(Cell, i64)>, ScanFault> {
        match self {
            Shelf::Alone(book) => book.scan(ticket, region),
            Shelf::Shared(book) => book.scan(rt, ticket, region),
        }
    }

    /// Tries to commit an instance, which comes back where it is not ended.
    pub fn commit(
        &mut self,
        rt: &impl Wait,
        ticket: Ticket,
        run: Run<'a>,
    ) -> (Answer, Option<Instance<'a>>) {
        let committed = match self {
            Shelf::Alone(book) => book.commit(ticket, run),
            Shelf::Shared(book) => book.commit(rt, ticket, run),
        };
        match committed {
            Ok(receipt) => (Answer::Committed(receipt.number()), None),
            Err(fault) => commit_refused(fault),
        }
    }

    /// Tries to end an instance, which comes back where it is not ended.
    pub fn end(
        &mut self,
        rt: &impl Wait,
        ticket: Ticket,
        run: Run<'a>,
    ) -> (Answer, Option<Instance<'a>>) {
        let ended = match self {
            Shelf::Alone(book) => book.end(ticket, run),
            Shelf::Shared(book) => book.end(rt, ticket, run),
        };
        match ended {
            Ok(()) => (Answer::Aborted, None),
            Err(fault) => end_refused(fault),
        }
    }

    pub fn withdraw(&mut self, rt: &impl Wait, ticket: Ticket) -> Result<(), Ticket> {
        match self {
            Shelf::Alone(book) => book.withdraw(ticket),
            Shelf::Shared(book) => book.withdraw(rt, ticket),
        }
    }

    pub fn vacuum(&mut self, rt: &impl Wait) -> u64 {
        match self {
            Shelf::Alone(book) => book.vacuum(),
            Shelf::Shared(book) => book.vacuum(rt),
        }
    }

    pub fn into_book(self) -> Book<'a> {
        match self {
            Shelf::Alone(book) => book,
            Shelf::Shared(book) => book.into_book(),
        }
    }
}
