//! Calls of a book and their answers, as plain data.

use history_book::{BeginFault, Clash, CommitFault, Difference, EndFault, Ticket, Unused};
use prog_run::Run;
use prog_tree::End;

/// A call, with the number of its instance where it is of one.
#[derive(Clone, Copy)]
pub enum Call {
    /// A program and its arguments.
    Begin(usize, &'static [i64]),
    /// The same as of so many commits.
    BeginAt(u64, usize, &'static [i64]),
    /// Goes on with the instance's run to its end, with what it asks for read in the book.
    Run(usize),
    Commit(usize),
    End(usize),
    Withdraw(usize),
    Vacuum,
}

/// What a call answers.
#[derive(Clone, Copy, PartialEq, Eq)]
pub enum Answer {
    /// With the ticket's number and start.
    Begun(u64, u64),
    NotBegun(BeginFault),
    Ran(End),
    Committed(u64),
    Clashed(Clash),
    Aborted,
    Withdrawn,
    Vacuumed(u64),
    NoSuchTicket,
    /// The run has not ended as it has to.
    WrongEnd,
    ForeignRun(Difference),
    Memory,
    /// The instance is not at hand.
    Nothing,
}

/// An instance of the tests.
pub type Instance<'a> = (Ticket, Run<'a>);

fn instance_of<'a>(unused: Unused<'a>) -> Option<Instance<'a>> {
    let Unused { ticket, run } = unused;
    Some((ticket, run))
}

/// What came of a commit that was refused, and the instance where it came back.
pub fn commit_refused<'a>(fault: CommitFault<'a>) -> (Answer, Option<Instance<'a>>) {
    match fault {
        CommitFault::NoSuchTicket(unused) => (Answer::NoSuchTicket, instance_of(unused)),
        CommitFault::NotReady(unused) => (Answer::WrongEnd, instance_of(unused)),
        CommitFault::ForeignRun(place, unused) => (Answer::ForeignRun(place), instance_of(unused)),
        CommitFault::Memory(unused) => (Answer::Memory, instance_of(unused)),
        CommitFault::Clashed(clash) => (Answer::Clashed(clash), None),
    }
}

/// The same of an end.
pub fn end_refused<'a>(fault: EndFault<'a>) -> (Answer, Option<Instance<'a>>) {
    match fault {
        EndFault::NoSuchTicket(unused) => (Answer::NoSuchTicket, instance_of(unused)),
        EndFault::NotAborted(unused) => (Answer::WrongEnd, instance_of(unused)),
        EndFault::ForeignRun(place, unused) => (Answer::ForeignRun(place), instance_of(unused)),
        EndFault::Memory(unused) => (Answer::Memory, instance_of(unused)),
    }
}
