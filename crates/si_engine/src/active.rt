//! Active instances: their runs over a book.

ghost use Rattle.std.specs.Prelude.{◌≡◌, Some, IfOk, IfErr, OnOk, OnErr, option_map};
ghost use Rattle.prog_tree.specs.declared.deed.End.TheVariants.{Ready};
ghost use Rattle.history_book.specs.Refusals.{HasAborted};
ghost use Rattle.history_book.specs.Runs.{IsAborted, withdrawn_in};
ghost use Rattle.history_book.specs.View.{done_in};
ghost use Rattle.si_engine.specs.Machine.{stepped};
ghost use Rattle.si_engine.specs.View.{active_in, instance_in, IsActive, IsAfterStep};
ghost use Rattle.si_engine.specs.View.{IsCommitReply};

use crate::event::Reply;
use history_book::{Book, OwnCommitFault, Ticket};
use prog_run::{Next, Run};
use prog_tree::{End, Sequence};
use std::alloc::{AllocError, Global};

/// An instance that has not ended.
#[derive(Drop)]
pub struct ActiveRun<'a> {
    /// The number of its program.
    pub program: usize,
    pub ticket: Ticket,
    /// Its run, which stays where it is when the instance is moved.
    pub run: Box<Run<'a>>,
    /// A step answered that it is ready.
    pub ready: bool,
}

impl<'a> ActiveRun<'a> {
    // Ends it in the book, since its run has aborted. Without memory it is handed back.
    fn end(self, book: &mut Book<'a>) -> Result<(), ActiveRun<'a>>
        requires active { IsActive book.old self }
        requires aborted { HasAborted self.run.value }
        ensures ok { OnOk result
            (IsAborted book.old book.new self.entry.ticket self.entry.run.value) }
        ensures err { IfErr result (λ back. back ≡ self.entry) }
        ensures err_book { OnErr result (book.new ≡ book.old) }
    {
        match book.end_own(&self.ticket, &*self.run) {
            Ok(()) => Ok(()),
            Err(_) => Err(self),
        }
    }

    /// Steps it, through its next deed or to its end, and gives it back where it goes on. An
    /// aborted one ends in the book.
    pub fn step(
        mut self,
        alloc: Global,
        book: &mut Book<'a>,
    ) -> (Option<ActiveRun<'a>>, Result<Reply, AllocError>)
        requires { IsActive book.old self }
        ensures step { IfOk result.1 (λ reply. (reply, option_map active_in result.0)
            ≡ stepped (done_in book.old (instance_in self.entry)) (active_in self.entry)) }
        ensures after { IsAfterStep book.old book.new self.entry result.0 }
        ensures err { OnErr result.1 (option_map active_in result.0 ≡ Some (active_in self.entry)) }
    {
        let active = &mut self;
        match book.advance(&active.ticket, &mut *active.run) {
            Ok(Next::Did(deed)) => (Some(self), Ok(Reply::Did(deed))),
            Ok(Next::Done(End::Ready)) => match Sequence::from_slice(alloc, self.run.replies()) {
                Ok(replies) => {
                    self.ready = true;
                    (Some(self), Ok(Reply::Ready(replies)))
                }
                Err(_) => (Some(self), Err(AllocError)),
            },
            Ok(Next::Done(End::Aborted(cause))) => match self.end(book) {
                Ok(()) => (None, Ok(Reply::Aborted(cause))),
                Err(back) => (Some(back), Err(AllocError)),
            },
            Ok(_) => unreachable!(),
            Err(_) => (Some(self), Err(AllocError)),
        }
    }

    /// Commits it, or ends it by its clash. Without memory it is handed back.
    pub fn commit(self, book: &mut Book<'a>) -> Result<Reply, ActiveRun<'a>>
        requires active { IsActive book.old self }
        requires ready { self.run.value.end ≡ Some Ready }
        ensures ok { IfOk result (λ reply. IsCommitReply book.old book.new self.entry reply) }
        ensures err { IfErr result (λ back. back ≡ self.entry) }
        ensures err_book { OnErr result (book.new ≡ book.old) }
    {
        match book.commit_own(&self.ticket, &*self.run) {
            Ok(receipt) => Ok(Reply::Committed(receipt.number())),
            Err(OwnCommitFault::Clashed(clash)) => Ok(Reply::Clashed(clash)),
            Err(OwnCommitFault::Memory) => Err(self),
        }
    }

    /// Withdraws it from the book.
    pub fn withdraw(self, book: &mut Book<'a>)
        requires { IsActive book.old self }
        ensures { book.new ≡ withdrawn_in book.old self.entry.ticket.number }
    {
        let Ok(()) = book.withdraw(self.ticket) else {
            unreachable!()
        };
    }
}
