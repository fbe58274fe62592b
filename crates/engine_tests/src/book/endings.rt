//! Commits and ends of a book, with plain answers and the ticket that comes back.

ghost use Rattle.history_book.specs.Refusals.{IsFoundBy};

use crate::book::answer::Answer;
use history_book::{Book, CommitFault, EndFault, Ending, Ticket, Unused};
use prog_run::Run;

fn ticket_of(unused: Unused<'_>) -> Option<Ticket> {
    let Unused { ticket, run } = unused;
    drop(run);
    Some(ticket)
}

fn commit_refused(fault: CommitFault<'_>) -> (Answer, Option<Ticket>) {
    match fault {
        CommitFault::NoSuchTicket(unused) => (Answer::NoSuchTicket, ticket_of(unused)),
        CommitFault::NotReady(unused) => (Answer::WrongEnd, ticket_of(unused)),
        CommitFault::ForeignRun(place, unused) => (Answer::ForeignRun(place), ticket_of(unused)),
        CommitFault::Memory(unused) => (Answer::Memory, ticket_of(unused)),
        CommitFault::Clashed(clash) => (Answer::Clashed(clash.number), None),
    }
}

/// Commits a run.
pub fn commit<'a>(book: &mut Book<'a>, ticket: Ticket, run: Run<'a>) -> (Answer, Option<Ticket>) {
    match book.commit(ticket, run) {
        Ok(receipt) => (Answer::Committed(receipt.number()), None),
        Err(fault) => commit_refused(fault),
    }
}

/// Commits a run that looked at nothing but what its snapshot holds.
pub fn commit_found<'a>(book: &mut Book<'a>, ticket: Ticket, run: Run<'a>) -> Answer
    requires { IsFoundBy book.old ticket run }
{
    match book.commit_found(ticket, run) {
        Ok(receipt) => Answer::Committed(receipt.number()),
        Err(fault) => commit_refused(fault).0,
    }
}

fn end_refused(fault: EndFault<'_>) -> (Answer, Option<Ticket>) {
    match fault {
        EndFault::NoSuchTicket(unused) => (Answer::NoSuchTicket, ticket_of(unused)),
        EndFault::NotAborted(unused) => (Answer::WrongEnd, ticket_of(unused)),
        EndFault::ForeignRun(place, unused) => (Answer::ForeignRun(place), ticket_of(unused)),
        EndFault::Memory(unused) => (Answer::Memory, ticket_of(unused)),
    }
}

/// Ends an instance by a run that has aborted.
pub fn end<'a>(book: &mut Book<'a>, ticket: Ticket, run: Run<'a>) -> (Answer, Option<Ticket>) {
    match book.end(ticket, run) {
        Ok(()) => (Answer::Aborted, None),
        Err(fault) => end_refused(fault),
    }
}

/// Ends an instance by a run that has aborted, and looked at nothing but what its snapshot holds.
pub fn end_found<'a>(book: &mut Book<'a>, ticket: Ticket, run: Run<'a>) -> Answer
    requires { IsFoundBy book.old ticket run }
{
    match book.end_found(ticket, run) {
        Ok(()) => Answer::Aborted,
        Err(fault) => end_refused(fault).0,
    }
}

/// How the instance ended that was the nth to end, from 0.
pub fn ending(book: &Book<'_>, number: usize) -> Answer {
    match book.endings().get(number) {
        Some(Ending::Committed(commit)) => Answer::Committed(*commit),
        Some(Ending::Clashed { clash, .. }) => Answer::Clashed(clash.number),
        Some(Ending::Aborted { .. }) => Answer::Aborted,
        None => Answer::Nothing,
    }
}

/// Whether two instances ended the same, by their places among the endings.
pub fn same_endings(book: &Book<'_>, number: usize, other: usize) -> Answer {
    match (book.endings().get(number), book.endings().get(other)) {
        (Some(ending), Some(other)) => Answer::Is(ending.is_same(other)),
        _ => Answer::Nothing,
    }
}
