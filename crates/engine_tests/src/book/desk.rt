//! A book with the ticket that is at hand.

use crate::book::answer::{Answer, Call};
use crate::book::endings::{commit, end, ending, same_endings};
use crate::book::runs::{Ride, run_of};
use crate::book::sets::{SET, cell, rows_of};
use history_book::{Book, Ticket};
use prog_check::ProgramSet;
use prog_tree::{Cell, Region, Rows};
use std::alloc::Global;
use std::process::Abort;

#[derive(Drop)]
struct Desk<'a> {
    alloc: Global,
    set: &'a ProgramSet,
    other: &'a ProgramSet,
    book: Book<'a>,
    ticket: Option<Ticket>,
}

// The rows of `t[0..9]`.
const FIRST_TEN: Region = Region {
    table: 0,
    first_low: 0,
    first_high: 9,
    second_low: 0,
    second_high: 0,
};

impl<'a> Desk<'a> {
    fn take(&mut self, ticket: Ticket) -> Answer {
        let answer = Answer::Begun(ticket.number(), ticket.start());
        self.ticket = Some(ticket);
        answer
    }

    fn begin(&mut self, program: usize, args: &[i64]) -> Answer {
        match self.book.begin(program, args) {
            Ok(ticket) => self.take(ticket),
            Err(fault) => Answer::NotBegun(fault),
        }
    }

    fn begin_at(&mut self, start: u64, program: usize, args: &[i64]) -> Answer {
        match self.book.begin_at(start, program, args) {
            Ok(ticket) => self.take(ticket),
            Err(fault) => Answer::NotBegun(fault),
        }
    }

    fn admit(&mut self, rt: &impl Abort, start: u64, program: usize, args: &[i64]) -> Answer {
        if let Some(fault) = self.book.refusal_at(start, program, args) {
            return Answer::NotBegun(fault);
        }
        let ticket = self.book.admit(start, program, args).expect(rt, "memory");
        self.take(ticket)
    }

    fn begins(&mut self, count: u64, program: usize, args: &[i64]) -> Answer {
        let mut last = Answer::Nothing;
        for _ in 0..count {
            last = self.begin(program, args);
        }
        last
    }

    fn begin_elsewhere(&mut self, rt: &impl Abort, program: usize, args: &[i64]) -> Answer {
        let rows = Rows::new(self.alloc);
        let mut other = Book::open(self.alloc, self.set, rows).expect(rt, "memory");
        let ticket = other.begin(program, args).expect(rt, "a ticket");
        drop(other);
        self.take(ticket)
    }

    fn get(&self, rt: &impl Abort, first: i64) -> Answer {
        let ticket = self.ticket.as_ref().expect(rt, "a ticket");
        match self.book.get(ticket, &cell(0, first)) {
            Ok(held) => Answer::Holds(held),
            Err(_) => Answer::NoSuchTicket,
        }
    }

    fn rows(&self, rt: &impl Abort) -> Answer {
        let ticket = self.ticket.as_ref().expect(rt, "a ticket");
        match self.book.scan(ticket, &FIRST_TEN) {
            Ok(rows) => {
                let pieces = self.book.scan_pieces(ticket, &FIRST_TEN).expect(rt, "rows");
                assert!(rt; pieces.len() == rows.len());
                Answer::Count(rows.len() as u64)
            }
            Err(_) => Answer::NoSuchTicket,
        }
    }

    fn commit(&mut self, rt: &impl Abort, set: &'a ProgramSet, ride: &Ride) -> Answer {
        let ticket = self.ticket.take().expect(rt, "a ticket");
        let run = run_of(rt, self.alloc, set, ride);
        self.book.prepare_looks(&run);
        let (answer, back) = commit(&mut self.book, ticket, run);
        self.ticket = back;
        answer
    }

    fn end(&mut self, rt: &impl Abort, ride: &Ride) -> Answer {
        let ticket = self.ticket.take().expect(rt, "a ticket");
        let run = run_of(rt, self.alloc, self.set, ride);
        let (answer, back) = end(&mut self.book, ticket, run);
        self.ticket = back;
        answer
    }

    // An instance of `Set` begins and commits, beside the ticket at hand.
    fn commit_set(&mut self, rt: &impl Abort, args: &'static [i64]) -> Answer {
        let ride = Ride {
            program: SET,
            args,
            held: None,
            steps: 2,
        };
        let run = run_of(rt, self.alloc, self.set, &ride);
        let ticket = self.book.begin(SET, args).expect(rt, "a ticket");
        commit(&mut self.book, ticket, run).0
    }

    fn withdraw(&mut self, rt: &impl Abort) -> Answer {
        let ticket = self.ticket.take().expect(rt, "a ticket");
        match self.book.withdraw(ticket) {
            Ok(()) => Answer::Withdrawn,
            Err(ticket) => {
                self.ticket = Some(ticket);
                Answer::NoSuchTicket
            }
        }
    }

    fn newest(&self, rt: &impl Abort, first: i64) -> Answer {
        let rows = self.book.table().expect(rt, "memory");
        Answer::Holds(rows.get(&cell(0, first)))
    }

    fn are_rows(&self, rt: &impl Abort, wanted: &[(Cell, i64)]) -> Answer {
        let rows = self.book.table_rows().expect(rt, "memory");
        Answer::Is(rows.as_slice() == wanted)
    }

    fn start_of(&self, number: u64) -> Answer {
        match self.book.nth_commit(number) {
            Some(row) => Answer::Count(row.start),
            None => Answer::Nothing,
        }
    }

    fn program(&self, name: &str) -> Answer {
        match self.book.set().program_number(name) {
            Some(number) => Answer::Count(number as u64),
            None => Answer::Nothing,
        }
    }

    fn refusal_at(&self, start: u64, program: usize, args: &[i64]) -> Answer {
        match self.book.refusal_at(start, program, args) {
            Some(fault) => Answer::NotBegun(fault),
            None => Answer::Nothing,
        }
    }

    // Makes a call that may change the book.
    fn make(&mut self, rt: &impl Abort, call: &Call) -> Answer {
        match call {
            Call::Begin(program, args) => self.begin(*program, args),
            Call::Begins(count, program, args) => self.begins(*count, *program, args),
            Call::BeginAt(start, program, args) => self.begin_at(*start, *program, args),
            Call::Admit(start, program, args) => self.admit(rt, *start, *program, args),
            Call::BeginElsewhere(program, args) => self.begin_elsewhere(rt, *program, args),
            Call::Commit(ride) => self.commit(rt, self.set, ride),
            Call::CommitOther(ride) => self.commit(rt, self.other, ride),
            Call::End(ride) => self.end(rt, ride),
            Call::Withdraw => self.withdraw(rt),
            Call::Set(args) => self.commit_set(rt, args),
            Call::Vacuum => Answer::Count(self.book.vacuum()),
            _ => self.ask(rt, call),
        }
    }

    // Makes a call that only reads.
    fn ask(&self, rt: &impl Abort, call: &Call) -> Answer {
        match call {
            Call::RefusalAt(start, program, args) => self.refusal_at(*start, *program, args),
            Call::Get(first) => self.get(rt, *first),
            Call::Rows => self.rows(rt),
            Call::Newest(first) => self.newest(rt, *first),
            Call::AreRows(rows) => self.are_rows(rt, rows),
            Call::Opening(first) => Answer::Holds(self.book.opening().get(&cell(0, *first))),
            Call::Commits => Answer::Count(self.book.commits()),
            Call::StartOf(number) => self.start_of(*number),
            Call::Ending(number) => ending(&self.book, *number),
            Call::SameEndings(number, other) => same_endings(&self.book, *number, *other),
            Call::IsFull => Answer::Is(self.book.is_full()),
            Call::Program(name) => self.program(name),
            _ => Answer::Nothing,
        }
    }
}

fn make_all(rt: &impl Abort, desk: &mut Desk<'_>, name: &str, calls: &[(Call, Answer)]) {
    for (number, (call, wanted)) in calls.iter().enumerate() {
        assert!(rt; desk.make(rt, call) == *wanted, "{name}: call {number}");
    }
}

/// What is shown, the rows at first, and the calls with what each has to answer.
pub type Case = (
    &'static str,
    &'static [(usize, i64, i64)],
    &'static [(Call, Answer)],
);

/// Makes the calls of a case on a book over a set, beside another set.
pub fn play<'a>(
    rt: &impl Abort,
    alloc: Global,
    set: &'a ProgramSet,
    other: &'a ProgramSet,
    case: &Case,
) {
    let (name, rows, calls) = *case;
    let rows = rows_of(rt, alloc, rows);
    let book = Book::open(alloc, set, rows).expect(rt, "memory");
    let mut desk = Desk {
        alloc,
        set,
        other,
        book,
        ticket: None,
    };
    make_all(rt, &mut desk, name, calls);
    drop(desk);
}

/// Makes the calls of cases, each on a book of its own over the set.
pub fn play_all(rt: &impl Abort, alloc: Global, set: &ProgramSet, cases: &[Case]) {
    for case in cases {
        play(rt, alloc, set, set, case);
    }
}
