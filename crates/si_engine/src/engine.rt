//! The engine: instances over a book, moved by events.

ghost use Rattle.std.specs.Prelude.{◌≡◌, length, Some, None, Ok, IfOk, IfErr, OnOk, OnErr};
ghost use Rattle.std.specs.Prelude.{slice_get, slice_set};
ghost use Rattle.prog_tree.specs.Tree.{draft_tree};
ghost use Rattle.prog_run.specs.View.{begin_fault, begun};
ghost use Rattle.history_book.specs.History.{state_after};
ghost use Rattle.history_book.specs.View.{history_of};
ghost use Rattle.si_engine.specs.Machine.{new_machine};
ghost use Rattle.si_engine.specs.View.{Applies, answer_to, answer_without, numbered};

use crate::active::ActiveRun;
use crate::event::{Event, Reply};
use history_book::{BeginFault, Book};
use prog_check::ProgramSet;
use prog_run::{Run, RunFault};
use prog_tree::{Cell, Rows, Sequence};
use std::alloc::{AllocError, Global};
use std::marker::Model;

/// An engine over a set of programs.
#[derive(Drop)]
pub struct Engine<'a> {
    alloc: Global,
    book: Book<'a>,
    /// Each instance that was begun, by its number; none where it has ended.
    begun: Vec<Option<ActiveRun<'a>>>,
}

impl<'a> Model for Engine<'a> {
    ghost use Rattle.std.specs.Coded.{codes};
    ghost use Rattle.prog_tree.specs.contracts.stmt.Block as block;
    ghost use Rattle.si_engine.specs.View.{EngineView, machine_of, IsEngine};

    ghost Value = { EngineView };

    ghost coded = { Prim.hlevel (codes, block.the_row.coded) };

    ghost view = { λ e. record {
      set = e.book.set;
      opening = e.book.opening;
      machine = machine_of e.book e.begun.items;
    } };

    ghost invariant = { λ e. IsEngine e.book e.begun.items };
}

// A run of a program that is there, with as many arguments as it has parameters, in a place of its
// own.
fn started<'a>(
    alloc: Global,
    set: &'a ProgramSet,
    program: usize,
    args: &[i64],
) -> Result<Box<Run<'a>>, AllocError>
    requires { begin_fault (slice_get set.now.programs.items program) args.now ≡ None }
    ensures begun { IfOk result (λ run.
        run.value ≡ begun set.now.tables.items run.value.program args.now) }
    ensures program { IfOk result (λ run.
        slice_get set.now.programs.items program ≡ Some run.value.program) }
{
    match Run::new(alloc, set, program, args) {
        Ok(run) => Ok(Box::new(alloc, run)?),
        Err(RunFault::Memory) => Err(AllocError),
        Err(_) => unreachable!(),
    }
}

// What is answered to a begin that the book refuses. Want of memory is no answer.
fn refused(fault: BeginFault) -> Result<Reply, AllocError>
    ensures ok { IfOk result (λ reply. answer_to fault ≡ Some reply) }
    ensures err { OnErr result (answer_to fault ≡ None) }
{
    match fault {
        BeginFault::NoSuchProgram => Ok(Reply::NoSuchProgram),
        BeginFault::WrongArguments => Ok(Reply::WrongArguments),
        BeginFault::TooOld { floor } => Ok(Reply::TooOld { floor }),
        BeginFault::TooNew { commits } => Ok(Reply::TooNew { commits }),
        BeginFault::Full => Ok(Reply::Full),
        BeginFault::Memory => Err(AllocError),
    }
}

// Takes the active instance of a number out of its place, or tells that there is none.
fn take_active<'a>(
    begun: &mut Vec<Option<ActiveRun<'a>>>,
    number: usize,
) -> Result<ActiveRun<'a>, Reply>
    ensures found { IfOk result (λ active. slice_get begun.old.items number ≡ Some (Some active)) }
    ensures taken { OnOk result (begun.new.items ≡ slice_set begun.old.items number None) }
    ensures none { IfErr result (λ reply.
        answer_without (slice_get begun.old.items number) ≡ Some reply) }
    ensures same { OnErr result (begun.new.items ≡ begun.old.items) }
{
    if number >= begun.len() {
        return Err(Reply::NoSuchInstance);
    }
    match begun[number].take() {
        Some(active) => Ok(active),
        None => Err(Reply::Ended),
    }
}

impl<'a> Engine<'a> {
    ghost use Rattle.si_engine.specs.declared.event.Event.TheVariants as event;

    /// An engine over the opening rows, in which nothing has begun.
    pub fn open(alloc: Global, set: &'a ProgramSet, rows: Rows) -> Result<Self, AllocError>
        ensures { IfOk result (λ engine.
            engine ≡ record { set = set.now; opening = rows; machine = new_machine }) }
    {
        let book = Book::open(alloc, set, rows)?;
        Ok(Engine {
            alloc,
            book,
            begun: Vec::new(alloc),
        })
    }

    /// The book of all that was begun, committed and ended.
    pub fn book(&self) -> &Book<'a>
        ensures set { result.now.set ≡ self.now.set }
        ensures opening { result.now.opening ≡ self.now.opening }
        ensures history { history_of result.now.rows ≡ self.now.machine.history }
        ensures endings { length result.now.endings ≡ self.now.machine.endings }
        ensures active { result.now.active ≡ numbered 0 self.now.machine.begun }
        ensures begun { result.now.begun ≡ length self.now.machine.begun }
        ensures floor { result.now.floor ≡ self.now.machine.floor }
    {
        &self.book
    }

    /// The rows after all commits, in the order of their cells.
    pub fn table(&self) -> Result<Sequence<(Cell, i64)>, AllocError>
        ensures { IfOk result (λ rows. let h = self.now.machine.history in
            rows ≡ state_after (draft_tree self.now.set) self.now.opening h (length h)) }
    {
        self.book.table_rows()
    }

    fn begin(&mut self, program: usize, args: &[i64]) -> Result<Reply, AllocError>
        ensures { Applies (event.Begin program args.now) self.old self.new result }
    {
        let commits = self.book.commits();
        let reply = self.begin_at(commits, program, args)?;
        Ok(reply)
    }

    fn begin_at(&mut self, start: u64, program: usize, args: &[i64]) -> Result<Reply, AllocError>
        ensures { Applies (event.BeginAt start program args.now) self.old self.new result }
    {
        if let Some(fault) = self.book.refusal_at(start, program, args) {
            let reply = refused(fault)?;
            return Ok(reply);
        }
        let run = started(self.alloc, self.book.set(), program, args)?;
        self.begun.reserve(1)?;
        let ticket = self.book.admit(start, program, args)?;
        let instance = self.begun.len();
        self.begun.push_reserved(Some(ActiveRun {
            program,
            ticket,
            run,
            ready: false,
        }));
        Ok(Reply::Begun { instance, start })
    }

    fn step(&mut self, number: usize) -> Result<Reply, AllocError>
        ensures { Applies (event.Step number) self.old self.new result }
    {
        let active = match take_active(&mut self.begun, number) {
            Ok(active) => active,
            Err(reply) => return Ok(reply),
        };
        let (after, reply) = active.step(self.alloc, &mut self.book);
        self.begun[number] = after;
        reply
    }

    fn commit(&mut self, number: usize) -> Result<Reply, AllocError>
        ensures { Applies (event.Commit number) self.old self.new result }
    {
        let active = match take_active(&mut self.begun, number) {
            Ok(active) => active,
            Err(reply) => return Ok(reply),
        };
        if !active.ready {
            self.begun[number] = Some(active);
            return Ok(Reply::NotReady);
        }
        match active.commit(&mut self.book) {
            Ok(reply) => Ok(reply),
            Err(back) => {
                self.begun[number] = Some(back);
                Err(AllocError)
            }
        }
    }

    fn abort(&mut self, number: usize) -> Reply
        ensures { Applies (event.Abort number) self.old self.new (Ok result) }
    {
        match take_active(&mut self.begun, number) {
            Ok(active) => {
                active.withdraw(&mut self.book);
                Reply::Withdrawn
            }
            Err(reply) => reply,
        }
    }

    fn vacuum(&mut self) -> Reply
        ensures { Applies event.Vacuum self.old self.new (Ok result) }
    {
        Reply::Vacuumed(self.book.vacuum())
    }

    /// One event. After want of memory the same event may be sent again.
    pub fn apply(&mut self, event: &Event) -> Result<Reply, AllocError>
        ensures { Applies event.now self.old self.new result }
    {
        match event {
            Event::Begin { program, args } => self.begin(*program, args.as_slice()),
            Event::BeginAt {
                start,
                program,
                args,
            } => self.begin_at(*start, *program, args.as_slice()),
            Event::Step(number) => self.step(*number),
            Event::Commit(number) => self.commit(*number),
            Event::Abort(number) => Ok(self.abort(*number)),
            Event::Vacuum => Ok(self.vacuum()),
        }
    }
}
