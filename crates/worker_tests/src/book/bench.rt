//! Instances over a book that is shared or not.

use crate::book::answer::{Answer, Call, Instance};
use crate::book::shelf::Shelf;
use history_book::{BeginFault, Book, Ticket};
use prog_check::ProgramSet;
use prog_run::{Next, Run};
use prog_tree::End;
use std::alloc::Global;
use std::mem;
use std::process::Abort;
use std::sync::Wait;

// No run of the tests takes more steps.
const MOST_STEPS: usize = 8;

#[derive(Drop)]
pub struct Bench<'a> {
    alloc: Global,
    set: &'a ProgramSet,
    shelf: Shelf<'a>,
    // by their numbers, as long as they are active
    instances: Vec<Option<Instance<'a>>>,
}

// One step of a run, with what it asks for read in the book.
fn step<R: Wait + Abort>(rt: &R, shelf: &Shelf<'_>, ticket: &Ticket, run: &mut Run<'_>) -> Next {
    match run.advance().expect(rt, "a step") {
        Next::Get(cell) => {
            let held = shelf.get(rt, ticket, &cell).expect(rt, "what a cell holds");
            run.answer_get(held).expect(rt, "a step")
        }
        Next::Scan(region) => {
            let rows = shelf.scan(rt, ticket, &region).expect(rt, "rows");
            run.answer_scan(rows).expect(rt, "a step")
        }
        next => next,
    }
}

fn finish<R: Wait + Abort>(
    rt: &R,
    shelf: &Shelf<'_>,
    ticket: &Ticket,
    run: &mut Run<'_>,
) -> Option<End> {
    for _ in 0..MOST_STEPS {
        if let Next::Done(end) = step(rt, shelf, ticket, run) {
            return Some(end);
        }
    }
    None
}

impl<'a> Bench<'a> {
    pub fn new(alloc: Global, set: &'a ProgramSet, shelf: Shelf<'a>) -> Bench<'a> {
        Bench {
            alloc,
            set,
            shelf,
            instances: Vec::new(alloc),
        }
    }

    // Keeps an instance that was begun.
    fn keep(&mut self, rt: &impl Abort, ticket: Ticket, run: Run<'a>) -> Answer {
        let answer = Answer::Begun(ticket.number(), ticket.start());
        self.instances
            .push(Some((ticket, run)))
            .expect(rt, "memory");
        answer
    }

    // What came of a begin; the instance is kept.
    fn begun(
        &mut self,
        rt: &impl Abort,
        begun: Result<Ticket, BeginFault>,
        program: usize,
        args: &[i64],
    ) -> Answer {
        match begun {
            Ok(ticket) => {
                let run = Run::new(self.alloc, self.set, program, args).expect(rt, "a run");
                self.keep(rt, ticket, run)
            }
            Err(fault) => Answer::NotBegun(fault),
        }
    }

    fn begin<R: Wait + Abort>(&mut self, rt: &R, program: usize, args: &[i64]) -> Answer {
        let begun = self.shelf.begin(rt, program, args);
        self.begun(rt, begun, program, args)
    }

    fn begin_at<R: Wait + Abort>(
        &mut self,
        rt: &R,
        start: u64,
        program: usize,
        args: &[i64],
    ) -> Answer {
        let begun = self.shelf.begin_at(rt, start, program, args);
        self.begun(rt, begun, program, args)
    }

    fn take(&mut self, number: usize) -> Option<Instance<'a>> {
        self.instances.get_mut(number)?.take()
    }

    fn put_back(&mut self, rt: &impl Abort, number: usize, instance: Option<Instance<'a>>) {
        let place = self.instances.get_mut(number).expect(rt, "a place");
        drop(mem::replace(place, instance));
    }

    fn run<R: Wait + Abort>(&mut self, rt: &R, number: usize) -> Answer {
        let Some((ticket, mut run)) = self.take(number) else {
            return Answer::Nothing;
        };
        let ended = finish(rt, &self.shelf, &ticket, &mut run);
        self.put_back(rt, number, Some((ticket, run)));
        match ended {
            Some(end) => Answer::Ran(end),
            None => Answer::Nothing,
        }
    }

    fn commit<R: Wait + Abort>(&mut self, rt: &R, number: usize) -> Answer {
        let Some((ticket, run)) = self.take(number) else {
            return Answer::Nothing;
        };
        let (answer, back) = self.shelf.commit(rt, ticket, run);
        self.put_back(rt, number, back);
        answer
    }

    fn end<R: Wait + Abort>(&mut self, rt: &R, number: usize) -> Answer {
        let Some((ticket, run)) = self.take(number) else {
            return Answer::Nothing;
        };
        let (answer, back) = self.shelf.end(rt, ticket, run);
        self.put_back(rt, number, back);
        answer
    }

    fn withdraw(&mut self, rt: &impl Wait, number: usize) -> Answer {
        let Some((ticket, run)) = self.take(number) else {
            return Answer::Nothing;
        };
        drop(run);
        match self.shelf.withdraw(rt, ticket) {
            Ok(()) => Answer::Withdrawn,
            Err(_) => Answer::NoSuchTicket,
        }
    }

    /// Makes a call.
    pub fn make<R: Wait + Abort>(&mut self, rt: &R, call: &Call) -> Answer {
        match call {
            Call::Begin(program, args) => self.begin(rt, *program, args),
            Call::BeginAt(start, program, args) => self.begin_at(rt, *start, *program, args),
            Call::Run(number) => self.run(rt, *number),
            Call::Commit(number) => self.commit(rt, *number),
            Call::End(number) => self.end(rt, *number),
            Call::Withdraw(number) => self.withdraw(rt, *number),
            Call::Vacuum => Answer::Vacuumed(self.shelf.vacuum(rt)),
        }
    }

    /// The book, with the instances let go.
    pub fn into_book(self) -> Book<'a> {
        let Bench {
            shelf,
            instances,
            ..
        } = self;
        drop(instances);
        shelf.into_book()
    }
}
