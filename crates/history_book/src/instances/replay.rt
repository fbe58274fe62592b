//! Runs that read in a book: those of its instances, and those that are made again.

ghost use Rattle.std.specs.Prelude.{◌≡◌, ◌≤◌, Some, IsSome, length, IfOk, IfErr, OnOk, OnErr};
ghost use Rattle.prog_tree.specs.Table.{rows_in};
ghost use Rattle.prog_tree.specs.Tree.{draft_tree};
ghost use Rattle.prog_run.specs.Looks.{AreFound};
ghost use Rattle.prog_run.specs.View.{IsTrueRun, SameBegin};
ghost use Rattle.history_book.specs.Audit.{CameTo};
ghost use Rattle.history_book.specs.History.{IsCalled};
ghost use Rattle.history_book.specs.Runs.{StaysOwn, StepsTo, StopsShort};
ghost use Rattle.history_book.specs.View.{active_at, done_in, instance_of, state_in};

use crate::book::Book;
use crate::instances::row::HistoryRow;
use crate::instances::ticket::Ticket;
use prog_run::{AnswerFault, Next, Run, RunFault};
use prog_tree::{Look, Region, RowPieces};
use std::alloc::AllocError;

// An answer that fits the question is refused for want of memory alone.
fn next_of_answer(answer: Result<Next, AnswerFault>) -> Result<Next, AllocError>
    requires { IfErr answer (λ fault. fault ≡ AnswerFault.Memory) }
    ensures ok { IfOk result (λ next. answer ≡ Ok next) }
    ensures err { OnErr result (answer ≡ Err AnswerFault.Memory) }
{
    match answer {
        Ok(next) => Ok(next),
        Err(AnswerFault::Memory) => Err(AllocError),
        Err(_) => unreachable!(),
    }
}

impl<'a> Book<'a> {
    // The rows of a region after the first `start` commits. A look that is at once repeated is not
    // read again, and shares its rows.
    fn rows_for(&self, start: u64, run: &Run<'_>, region: &Region) -> Result<RowPieces, AllocError>
        requires above { self.now.floor ≤ start }
        requires within { start ≤ length self.now.rows }
        requires found { AreFound (state_in self.now start) run.now.looks }
        ensures { IfOk result (λ rows. rows ≡ rows_in region.now (state_in self.now start)) }
    {
        match run.rows_again(region) {
            Some(rows) => rows.share(),
            None => self.pieces_in(start, region),
        }
    }

    // The next store statement of a run, or its end. What it asks for is read after the first
    // `start` commits.
    fn advance_at(&self, start: u64, run: &mut Run<'_>) -> Result<Next, AllocError>
        requires above { self.now.floor ≤ start }
        requires within { start ≤ length self.now.rows }
        requires found { AreFound (state_in self.now start) run.old.looks }
        ensures ok { IfOk result (λ next. StepsTo next run.old run.new) }
        ensures own { StaysOwn (state_in self.now start) run.old run.new }
        ensures err { OnErr result (StopsShort run.old run.new) }
    {
        match run.advance()? {
            Next::Get(cell) => {
                let held = self.row_at(start, &cell);
                let next = next_of_answer(run.answer_get(held))?;
                Ok(next)
            }
            Next::Scan(region) => {
                let rows = self.rows_for(start, run, &region)?;
                let next = run.answer_rows(rows)?;
                Ok(next)
            }
            next => Ok(next),
        }
    }

    // An active instance sees commits from the floor on.
    fn read_start(&self, ticket: &Ticket)
        requires { IsSome (active_at self.now ticket.now) }
        ensures above { self.now.floor ≤ ticket.now.start }
        ensures within { ticket.now.start ≤ length self.now.rows }
    {
        self.commits();
    }

    // Makes ready for a scan of a region, but for one that the run's last look has done.
    fn prepare(&mut self, start: u64, run: &Run<'_>, region: &Region)
        ensures { self.new ≡ self.old }
    {
        if run.rows_again(region).is_none() {
            self.store.prepare(start, region);
        }
    }

    // Makes ready for scans of the region of a look after all commits so far, if it has one.
    fn prepare_look(&mut self, look: &Look)
        ensures { self.new ≡ self.old }
    {
        let commits = self.commits();
        if let Look::Range { region, .. } = look {
            self.store.prepare(commits, region);
        }
    }

    /// Makes ready for scans of the regions that a run looked at, after all commits so far.
    pub fn prepare_looks(&mut self, run: &Run<'_>)
        ensures { self.new ≡ self.old }
    {
        for look in run.looks() {
            self.prepare_look(look);
        }
    }

    /// The next store statement of a run, or its end. What it asks for is read in the book, as the
    /// ticket's instance sees it; a region is made ready before.
    pub fn advance(&mut self, ticket: &Ticket, run: &mut Run<'_>) -> Result<Next, AllocError>
        requires active { IsSome (active_at self.old ticket.now) }
        requires found { AreFound (state_in self.old ticket.now.start) run.old.looks }
        ensures ok { IfOk result (λ next. StepsTo next run.old run.new) }
        ensures own { StaysOwn (state_in self.old ticket.now.start) run.old run.new }
        ensures err { OnErr result (StopsShort run.old run.new) }
        ensures same { self.new ≡ self.old }
    {
        self.read_start(ticket);
        let start = ticket.start();
        match run.advance()? {
            Next::Get(_) => self.advance_at(start, run),
            Next::Scan(region) => {
                self.prepare(start, run, &region);
                self.advance_at(start, run)
            }
            next => Ok(next),
        }
    }

    // Goes on with a run to its end.
    fn finish(&self, start: u64, run: &mut Run<'_>) -> Result<(), AllocError>
        requires above { self.now.floor ≤ start }
        requires within { start ≤ length self.now.rows }
        requires found { AreFound (state_in self.now start) run.old.looks }
        ensures over { OnOk result (IsSome run.new.end) }
        ensures found { OnOk result (AreFound (state_in self.now start) run.new.looks) }
        ensures true_run { OnOk result (IsTrueRun run.new) }
        ensures same { OnOk result (SameBegin run.old run.new) }
    {
        'steps: loop {
            if let Next::Done(_) = self.advance_at(start, run)? {
                return Ok(());
            }
        }
    }

    /// The run of a row's program with its arguments, to its end, on what its instance sees.
    pub(crate) fn replay(&self, row: &HistoryRow) -> Result<Run<'a>, AllocError>
        requires called { IsCalled (draft_tree self.now.set) (instance_of row.now) }
        requires above { self.now.floor ≤ row.now.start }
        requires within { row.now.start ≤ length self.now.rows }
        ensures { IfOk result (λ run. CameTo run (done_in self.now (instance_of row.now))) }
    {
        let mut run = match Run::new(self.alloc, self.set, row.program, row.args.as_slice()) {
            Ok(run) => run,
            Err(RunFault::Memory) => return Err(AllocError),
            Err(_) => unreachable!(),
        };
        self.finish(row.start, &mut run)?;
        Ok(run)
    }
}
