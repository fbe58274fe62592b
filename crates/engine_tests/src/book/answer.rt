//! Calls of a book and their answers, as plain data.

use crate::book::runs::Ride;
use history_book::{BeginFault, Difference};
use prog_tree::Cell;

/// A call, with the ticket at hand where it takes one.
#[derive(Clone, Copy)]
pub enum Call {
    /// A begin, whose ticket takes the place of the one at hand, which is dropped.
    Begin(usize, &'static [i64]),
    /// So many begins, one after another.
    Begins(u64, usize, &'static [i64]),
    /// A begin at so many commits.
    BeginAt(u64, usize, &'static [i64]),
    /// A begin at so many commits that is known not to be refused.
    Admit(u64, usize, &'static [i64]),
    /// Why no instance can begin so.
    RefusalAt(u64, usize, &'static [i64]),
    /// A begin in another book, which is empty.
    BeginElsewhere(usize, &'static [i64]),
    Get(i64),
    /// How many rows the instance sees in `t[0..9]`.
    Rows,
    Commit(Ride),
    /// The same with a run over the other set.
    CommitOther(Ride),
    End(Ride),
    Withdraw,
    /// An instance of `Set` begins and commits at once, beside the ticket at hand.
    Set(&'static [i64]),
    Vacuum,
    /// What a cell holds after all commits.
    Newest(i64),
    /// Whether these are the rows after all commits.
    AreRows(&'static [(Cell, i64)]),
    /// What a cell held at first.
    Opening(i64),
    Commits,
    /// The start of the commit of a number.
    StartOf(u64),
    /// How the instance ended that was the nth to end, from 0.
    Ending(usize),
    /// Whether two instances ended the same, by their places among the endings.
    SameEndings(usize, usize),
    IsFull,
    /// The number of a program of the book's set.
    Program(&'static str),
}

/// What a call answers.
#[derive(Clone, Copy, PartialEq, Eq)]
pub enum Answer {
    /// With the ticket's number and start.
    Begun(u64, u64),
    NotBegun(BeginFault),
    Holds(Option<i64>),
    Count(u64),
    Is(bool),
    Committed(u64),
    /// With the number of the commit that came first.
    Clashed(u64),
    Aborted,
    Withdrawn,
    NoSuchTicket,
    /// The run has not ended as it has to.
    WrongEnd,
    ForeignRun(Difference),
    Memory,
    /// There is no such thing.
    Nothing,
}
