//! What a worker asks of the book.

ghost use Rattle.std.specs.Prelude.{◌≡◌, ◌+◌, ◌<◌, ◌^◌, ℕ, IfOk, List, OnOk, Option};
ghost use Rattle.prog_tree.specs.Table.{TableState};
ghost use Rattle.job_worker.specs.Ended.{ended_by_commit, ended_by_end};
ghost use Rattle.job_worker.specs.KnownStates.{AreRowsAt, AreRowsOf, IsFoundIn, IsKnown, IsValueAt};
ghost use Rattle.job_worker.specs.LastAnswer.{after_begin, after_commit, after_end};

use history_book::{BeginFault, Clash, CommitFault, EndFault, NoSuchTicket, ScanFault, Ticket};
use prog_run::Run;
use prog_tree::{Cell, Region, RowPieces};

/// What a worker was answered of an instance that it could not begin, or that ended.
#[derive(Clone, Copy)]
pub enum Answer {
    Committed(u64),
    Clashed(Clash),
    Aborted,
    Refused(BeginFault),
}

/// A book as one worker meets it.
pub trait Desk<'a> {
    ghost use Rattle.prog_tree.specs.Table.{TableState};
    ghost use Rattle.job_worker.specs.declared.desk.Answer.{Answer};

    /// How many instances committed, clashed or aborted through it.
    ghost ended: { Self → ℕ };

    /// What it answered last.
    ghost last: { Self → Option Answer };

    /// The states of the book that it knows.
    ghost known: { Self → List TableState };

    fn begin(&mut self, job: usize, program: usize, args: &[i64]) -> Result<Ticket, BeginFault>
        ensures ended { ended self.new ≡ ended self.old }
        ensures last { last self.new ≡ after_begin result (last self.old) };

    fn get(&mut self, job: usize, ticket: &Ticket, cell: &Cell) -> Result<Option<i64>, NoSuchTicket>
        ensures ended { ended self.new ≡ ended self.old }
        ensures known { known self.new ≡ known self.old }
        ensures held { IfOk result (IsValueAt (known self.old) ticket.now.start cell.now) }
        ensures seen { OnOk result (IsKnown (known self.old) ticket.now.start) };

    fn scan(&mut self, job: usize, ticket: &Ticket, region: &Region) -> Result<RowPieces, ScanFault>
        ensures ended { ended self.new ≡ ended self.old }
        ensures known { known self.new ≡ known self.old }
        ensures rows { IfOk result (AreRowsOf region.now) }
        ensures held { IfOk result (AreRowsAt (known self.old) ticket.now.start region.now) }
        ensures seen { OnOk result (IsKnown (known self.old) ticket.now.start) };

    /// The number of the commit.
    fn commit(&mut self, ticket: Ticket, run: Run<'a>) -> Result<u64, CommitFault<'a>>
        requires room { ended self.old < 2 ^ 63 }
        requires found { IsFoundIn (known self.old) ticket.start run }
        ensures ended { ended self.new ≡ ended self.old + ended_by_commit result }
        ensures last { last self.new ≡ after_commit result (last self.old) };

    fn end(&mut self, ticket: Ticket, run: Run<'a>) -> Result<(), EndFault<'a>>
        requires room { ended self.old < 2 ^ 63 }
        requires found { IsFoundIn (known self.old) ticket.start run }
        ensures ended { ended self.new ≡ ended self.old + ended_by_end result }
        ensures last { last self.new ≡ after_end result (last self.old) };

    fn withdraw(&mut self, ticket: Ticket)
        ensures { ended self.new ≡ ended self.old };

    /// The job has ended.
    fn finished(&mut self, job: usize)
        ensures ended { ended self.new ≡ ended self.old }
        ensures last { last self.new ≡ last self.old };

    fn vacuum(&mut self)
        ensures { ended self.new ≡ ended self.old };
}
