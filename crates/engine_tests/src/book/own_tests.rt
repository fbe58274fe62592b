//! Instances that end by runs of their own, as their caller knows.

ghost use Rattle.std.specs.Prelude.{◌≡◌};
ghost use Rattle.prog_run.specs.Step.{end_after};
ghost use Rattle.history_book.specs.Refusals.{IsFoundBy, IsOfInstance};

use crate::book::answer::Answer;
use crate::book::endings::{commit_found, end_found, ending};
use crate::book::sets::{LOOK, REGISTERS, STOP, cell};
use example_sets::set_of;
use history_book::{Book, OwnCommitFault, Ticket};
use prog_check::ProgramSet;
use prog_run::{Next, Run};
use prog_tree::{Deed, End, Rows};
use std::alloc::Global;
use std::process::Abort;
use std::test::Fail;

// A book without rows, with its first instance and a run of it.
fn begun<'a>(
    rt: &impl Abort,
    alloc: Global,
    set: &'a ProgramSet,
    program: usize,
    args: &[i64],
) -> (Book<'a>, Ticket, Run<'a>)
    ensures { IsOfInstance result.0 result.1 result.2 }
{
    let mut book = Book::open(alloc, set, Rows::new(alloc)).expect(rt, "memory");
    let ticket = book.begin(program, args).expect(rt, "a ticket");
    let run = Run::new(alloc, set, program, args).expect(rt, "a run");
    (book, ticket, run)
}

// The next statement of a run, or its end. What a cell holds is read in the book.
fn advance(rt: &impl Abort, book: &mut Book<'_>, ticket: &Ticket, run: &mut Run<'_>) -> Next
    requires { IsOfInstance book.old ticket.now run.old }
    ensures own { IsOfInstance book.new ticket.now run.new }
    ensures found { IsFoundBy book.new ticket.now run.new }
    ensures end { run.new.end ≡ end_after result }
{
    book.advance(ticket, run).expect(rt, "memory")
}

// Whether a run's next statement found nothing in `t[1]`.
fn finds_nothing(rt: &impl Abort, book: &mut Book<'_>, ticket: &Ticket, run: &mut Run<'_>) -> bool
    requires { IsOfInstance book.old ticket.now run.old }
    ensures { IsOfInstance book.new ticket.now run.new }
{
    advance(rt, book, ticket, run) == Next::Did(Deed::Read(cell(0, 1), None))
}

// Commits a run that has no statement left.
fn commit_own(rt: &impl Abort, book: &mut Book<'_>, ticket: &Ticket, run: &mut Run<'_>) -> Answer
    requires { IsOfInstance book.old ticket.now run.old }
{
    let Next::Done(End::Ready) = advance(rt, book, ticket, run) else {
        return Answer::WrongEnd;
    };
    match book.commit_own(ticket, run) {
        Ok(receipt) => Answer::Committed(receipt.number()),
        Err(OwnCommitFault::Clashed(clash)) => Answer::Clashed(clash.number),
        Err(OwnCommitFault::Memory) => Answer::Memory,
    }
}

// Ends the instance of a run that aborts next.
fn end_own(rt: &impl Abort, book: &mut Book<'_>, ticket: &Ticket, run: &mut Run<'_>) -> Answer
    requires { IsOfInstance book.old ticket.now run.old }
{
    let Next::Done(End::Aborted(_)) = advance(rt, book, ticket, run) else {
        return Answer::WrongEnd;
    };
    match book.end_own(ticket, run) {
        Ok(()) => Answer::Aborted,
        Err(_) => Answer::Memory,
    }
}

fn look(rt: &impl Abort, alloc: Global, set: &ProgramSet) {
    let (mut book, ticket, mut run) = begun(rt, alloc, set, LOOK, &[1]);
    assert!(rt; finds_nothing(rt, &mut book, &ticket, &mut run));
    let answer = commit_own(rt, &mut book, &ticket, &mut run);
    assert!(rt; answer == Answer::Committed(1));
    assert!(rt; ending(&book, 0) == Answer::Committed(1));
}

#[test]
fn a_run_that_is_ready_commits_its_instance(rt: HostRuntime) -> Result<(), Fail> {
    let set = set_of(rt.alloc(), REGISTERS)?;
    look(&rt, rt.alloc(), &set);
    drop(set);
    Ok(())
}

fn stop(rt: &impl Abort, alloc: Global, set: &ProgramSet) {
    let (mut book, ticket, mut run) = begun(rt, alloc, set, STOP, &[]);
    let answer = end_own(rt, &mut book, &ticket, &mut run);
    assert!(rt; answer == Answer::Aborted);
    assert!(rt; ending(&book, 0) == Answer::Aborted);
    assert!(rt; book.commits() == 0);
}

#[test]
fn a_run_that_aborted_ends_its_instance(rt: HostRuntime) -> Result<(), Fail> {
    let set = set_of(rt.alloc(), REGISTERS)?;
    stop(&rt, rt.alloc(), &set);
    drop(set);
    Ok(())
}

// Makes two statements of a run, or those that it has.
fn advance_twice(rt: &impl Abort, book: &mut Book<'_>, ticket: &Ticket, run: &mut Run<'_>)
    requires { IsOfInstance book.old ticket.now run.old }
    ensures { IsFoundBy book.new ticket.now run.new }
{
    advance(rt, book, ticket, run);
    advance(rt, book, ticket, run);
}

fn look_found(rt: &impl Abort, alloc: Global, set: &ProgramSet) {
    let (mut book, ticket, mut run) = begun(rt, alloc, set, LOOK, &[1]);
    advance_twice(rt, &mut book, &ticket, &mut run);
    assert!(rt; commit_found(&mut book, ticket, run) == Answer::Committed(1));
    assert!(rt; ending(&book, 0) == Answer::Committed(1));
}

#[test]
fn a_run_whose_looks_are_known_commits_its_instance(rt: HostRuntime) -> Result<(), Fail> {
    let set = set_of(rt.alloc(), REGISTERS)?;
    look_found(&rt, rt.alloc(), &set);
    drop(set);
    Ok(())
}

fn stop_found(rt: &impl Abort, alloc: Global, set: &ProgramSet) {
    let (mut book, ticket, mut run) = begun(rt, alloc, set, STOP, &[]);
    advance(rt, &mut book, &ticket, &mut run);
    assert!(rt; end_found(&mut book, ticket, run) == Answer::Aborted);
    assert!(rt; ending(&book, 0) == Answer::Aborted);
    assert!(rt; book.commits() == 0);
}

#[test]
fn a_run_whose_looks_are_known_ends_its_instance(rt: HostRuntime) -> Result<(), Fail> {
    let set = set_of(rt.alloc(), REGISTERS)?;
    stop_found(&rt, rt.alloc(), &set);
    drop(set);
    Ok(())
}
