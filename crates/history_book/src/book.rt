//! The book.

ghost use Rattle.std.specs.Prelude.{◌≡◌, ◌≤◌, ℕ, false, List, Some, None, All, ◌↔◌, IsTrue, IfNone};
ghost use Rattle.std.specs.Prelude.{IfSome, length, IfOk, IfErr, OnOk, OnErr};
ghost use Rattle.std.specs.Prelude.{option_copied, slice_get};
ghost use Rattle.prog_tree.specs.Number.{IsI64};
ghost use Rattle.prog_run.specs.View.{IsTrueRun};
ghost use Rattle.serial_orders.specs.Orders.{IsCycle, least_order};
ghost use Rattle.serial_orders.specs.Placing.{IsOrderFault};
ghost use Rattle.serial_orders.specs.Reasons.{told_reason, IsReason};
ghost use Rattle.history_book.specs.Refusals.{HasAborted, IsFoundBy, IsOfInstance, IsCommitFault};
ghost use Rattle.history_book.specs.Refusals.{IsOwnCommitFault, IsEndFault, IsCellRead};
ghost use Rattle.history_book.specs.Refusals.{IsRegionRead, IsWithdrawal};
ghost use Rattle.history_book.specs.Runs.{IsCommitted, IsAborted};
ghost use Rattle.history_book.specs.TrueBook.{IsTrueBook};
ghost use Rattle.history_book.specs.View.{depends_in, traces_in, FitsBook, state_in, new_book};
ghost use Rattle.history_book.specs.View.{nth_row, held_for, rows_for, commits_in, least_start};
ghost use Rattle.history_book.specs.View.{vacuumed, is_full, start_fault, begin_fault_of};
ghost use Rattle.history_book.specs.View.{begin_at_fault_of, IsBeginRefusedBy, next_ticket};
ghost use Rattle.history_book.specs.View.{ticket_at, begun_in, begun_at};
ghost use Rattle.version_store.specs.Versions.{reclaimed};

use crate::fault::{
    BeginFault, CommitFault, EndFault, NoSuchTicket, OwnCommitFault, ScanFault, Unused,
};
use crate::instances::active::Active;
use crate::instances::active_set::ActiveSet;
use crate::instances::row::{Ending, HistoryRow};
use crate::instances::ticket::{Receipt, Ticket};
use crate::limits::MAX_ENDINGS;
use crate::orders::serial::serial_order;
use prog_check::ProgramSet;
use prog_run::Run;
use prog_tree::{Cause, Cell, End, Program, Region, RowPieces, Rows, Sequence};
use serial_orders::{OrderFault, OrderReason, Trace, are_commits, reason_between};
use std::alloc::{AllocError, Global};
use std::marker::Model;
use version_store::Store;

/// What was begun, committed and ended over a set of programs.
#[derive(Debug, Drop)]
pub struct Book<'a> {
    pub(crate) alloc: Global,
    pub(crate) set: &'a ProgramSet,
    pub(crate) opening: Rows,
    pub(crate) store: Store,
    pub(crate) rows: Vec<HistoryRow>,
    pub(crate) endings: Vec<Ending>,
    pub(crate) active: ActiveSet,
    pub(crate) traces: Vec<Trace>,
    pub(crate) begun: u64,
}

impl<'a> Model for Book<'a> {
    ghost use Rattle.std.specs.Coded.{codes};
    ghost use Rattle.prog_tree.specs.contracts.stmt.Block as block;
    ghost use Rattle.history_book.specs.TrueBook.{IsWholeBook};
    ghost use Rattle.history_book.specs.View.{BookView};

    ghost Value = { BookView };

    ghost coded = { Prim.hlevel (codes, block.the_row.coded) };

    ghost view = { λ b. record {
      set = b.set.now;
      opening = b.opening;
      rows = b.rows.items;
      endings = b.endings.items;
      active = b.active;
      begun = b.begun;
      floor = b.store.floor;
    } };

    ghost invariant = { λ b. IsWholeBook record {
      set = b.set.now;
      opening = b.opening;
      rows = b.rows.items;
      endings = b.endings.items;
      active = b.active;
      begun = b.begun;
      floor = b.store.floor;
    } b.store b.traces.items };
}

// Whether a run is over and ready.
pub(crate) fn is_ready(run: &Run<'_>) -> bool
    ensures ready { IsTrue result ↔ (run.now.end ≡ Some End.Ready) }
    ensures true_run { IsTrueRun run.now }
{
    matches!(run.end(), Some(End::Ready))
}

// Whether a run has aborted.
fn has_aborted(run: &Run<'_>) -> bool
    ensures { IsTrue result ↔ HasAborted run.now }
{
    cause_of(run).is_some()
}

// Why a run aborted, if it did.
fn cause_of(run: &Run<'_>) -> Option<Cause>
    ensures none { IfNone result (HasAborted run.now → ⊥) }
    ensures aborted { IfSome result (λ cause. run.now.end ≡ Some (End.Aborted cause)) }
    ensures true_run { IsTrueRun run.now }
{
    match run.end() {
        Some(End::Aborted(cause)) => Some(*cause),
        _ => None,
    }
}

// A run has come to what its program says, as its type keeps.
fn read_run(run: &Run<'_>)
    ensures { IsTrueRun run.now }
{
    let _end = run.end();
}

// Numbers are of i64, as their type says.
pub(crate) fn read_numbers(numbers: &[i64])
    ensures { All IsI64 numbers.now }
{
    for number in numbers {
        read_number(number);
    }
}

fn read_number(number: &i64)
    ensures { IsI64 number.now }
{
    let _number = *number;
}

impl<'a> Book<'a> {
    /// A book of opening rows, in which nothing was begun.
    pub fn open(alloc: Global, set: &'a ProgramSet, opening: Rows) -> Result<Self, AllocError>
        ensures { IfOk result (λ book. book ≡ new_book set.now opening) }
    {
        let store = Store::open(alloc, &opening)?;
        Ok(Book {
            alloc,
            set,
            opening,
            store,
            rows: Vec::new(alloc),
            endings: Vec::new(alloc),
            active: ActiveSet::new(alloc),
            traces: Vec::new(alloc),
            begun: 0,
        })
    }

    /// The set that it was opened with.
    pub fn set(&self) -> &'a ProgramSet
        ensures { result.now ≡ self.now.set }
    {
        self.set
    }

    /// The rows that it was opened with.
    pub fn opening(&self) -> &Rows
        ensures { result.now ≡ self.now.opening }
    {
        &self.opening
    }

    /// How many instances committed.
    pub fn commits(&self) -> u64
        ensures count { result ≡ length self.now.rows }
        ensures true_book { IsTrueBook self.now }
    {
        self.store.commits()
    }

    /// The commit of a number.
    pub fn nth_commit(&self, number: u64) -> Option<&HistoryRow>
        ensures { option_copied result ≡ nth_row self.now.rows number }
    {
        if number == 0 || number > self.commits() {
            return None;
        }
        self.rows.get((number - 1) as usize)
    }

    /// How each instance ended that committed, clashed or aborted, in this order.
    pub fn endings(&self) -> &[Ending]
        ensures all { result.now ≡ self.now.endings }
        ensures true_book { IsTrueBook self.now }
    {
        &self.endings
    }

    /// The rows after all commits.
    pub fn table(&self) -> Result<Rows, AllocError>
        ensures { IfOk result (λ rows. rows ≡ state_in self.now (length self.now.rows)) }
    {
        self.store.state(self.store.commits())
    }

    /// The rows after all commits, in the order of their cells.
    pub fn table_rows(&self) -> Result<Sequence<(Cell, i64)>, AllocError>
        ensures { IfOk result (λ rows. rows ≡ state_in self.now (length self.now.rows)) }
    {
        self.store.state_rows(self.store.commits())
    }

    /// Whether no begin can succeed.
    pub fn is_full(&self) -> bool
        ensures { result ≡ is_full self.now }
    {
        self.endings.len() + self.active.len() >= MAX_ENDINGS || self.begun == u64::MAX
    }

    // The program of a number.
    pub(crate) fn program(&self, number: usize) -> Option<&Program>
        ensures { option_copied result ≡ slice_get self.now.set.programs.items number }
    {
        self.set.draft().programs.get(number)
    }

    /// Why a begin at a number of commits would be refused, want of memory aside.
    pub fn refusal_at(&self, start: u64, program: usize, args: &[i64]) -> Option<BeginFault>
        ensures { result ≡ begin_at_fault_of self.now start program args.now }
    {
        let Some(found) = self.program(program) else {
            return Some(BeginFault::NoSuchProgram);
        };
        if found.params.len() != args.len() {
            return Some(BeginFault::WrongArguments);
        }
        if let Some(fault) = self.start_fault(start) {
            return Some(fault);
        }
        if self.is_full() {
            return Some(BeginFault::Full);
        }
        None
    }

    // Why no instance can begin at a number of commits.
    fn start_fault(&self, start: u64) -> Option<BeginFault>
        ensures { result ≡ start_fault self.now start }
    {
        let floor = self.store.floor();
        if start < floor {
            return Some(BeginFault::TooOld { floor });
        }
        let commits = self.store.commits();
        if start > commits {
            return Some(BeginFault::TooNew { commits });
        }
        None
    }

    /// The least equivalent serial order of the commits: at each place the least number that can
    /// stand there. Of several cycles any may be told.
    pub fn serial_order(&self) -> Result<Vec<usize>, OrderFault>
        ensures order { IfOk result (λ order.
            least_order (depends_in self.now) (length self.now.rows) ≡ Some order.items) }
        ensures fits { IfOk result (λ order. FitsBook self.now order.items) }
        ensures acyclic { IfOk result (λ order. (numbers : List ℕ) →
            IsCycle (depends_in self.now) numbers → ⊥) }
        ensures cycle { IfErr result (IsOrderFault (depends_in self.now)) }
    {
        serial_order(self.alloc, &self.traces)
    }

    /// Why the first of two commits has to stand before the second; none where it need not, or
    /// where a number is of no commit.
    pub fn reason(&self, first: u64, second: u64) -> Option<OrderReason>
        ensures some { IfSome result (IsReason (traces_in self.now) first second) }
        ensures none { IfNone result (depends_in self.now first second ≡ false) }
        ensures told { result ≡ told_reason (traces_in self.now) first second }
    {
        let traces = self.traces.as_slice();
        if !are_commits(traces, first, second) {
            return None;
        }
        reason_between(traces, first as usize, second as usize)
    }

    /// Begins an instance, which sees all commits so far.
    pub fn begin(&mut self, program: usize, args: &[i64]) -> Result<Ticket, BeginFault>
        ensures refused { IsBeginRefusedBy (begin_fault_of self.old program args.now) result }
        ensures ticket { IfOk result (λ ticket. ticket ≡ next_ticket self.old) }
        ensures begun { OnOk result (self.new ≡ begun_in self.old program args.now) }
        ensures err { OnErr result (self.new ≡ self.old) }
    {
        let start = self.store.commits();
        self.begin_at(start, program, args)
    }

    /// Begins an instance that sees the first `start` commits: from the last vacuum's floor to all
    /// so far. The first refusal that applies is answered.
    pub fn begin_at(
        &mut self,
        start: u64,
        program: usize,
        args: &[i64],
    ) -> Result<Ticket, BeginFault>
        ensures refused { IsBeginRefusedBy
            (begin_at_fault_of self.old start program args.now) result }
        ensures ticket { IfOk result (λ ticket. ticket ≡ ticket_at self.old start) }
        ensures begun { OnOk result (self.new ≡ begun_at self.old start program args.now) }
        ensures err { OnErr result (self.new ≡ self.old) }
    {
        if let Some(fault) = self.refusal_at(start, program, args) {
            return Err(fault);
        }
        Ok(self.admit(start, program, args)?)
    }

    /// Begins an instance as `begin_at` does, for a caller that knows that it is not refused.
    pub fn admit(&mut self, start: u64, program: usize, args: &[i64]) -> Result<Ticket, AllocError>
        requires { begin_at_fault_of self.old start program args.now ≡ None }
        ensures ticket { IfOk result (λ ticket. ticket ≡ ticket_at self.old start) }
        ensures begun { OnOk result (self.new ≡ begun_at self.old start program args.now) }
        ensures err { OnErr result (self.new ≡ self.old) }
    {
        read_numbers(args);
        let number = self.begun;
        let args = Sequence::from_slice(self.alloc, args)?;
        let active = Active {
            program,
            args,
            start,
        };
        self.active.insert(number, active)?;
        self.begun += 1;
        Ok(Ticket { number, start })
    }

    /// What a cell holds for a ticket's instance, its own changes aside.
    pub fn get(&self, ticket: &Ticket, cell: &Cell) -> Result<Option<i64>, NoSuchTicket>
        ensures { IsCellRead (held_for self.now ticket.now cell.now) result }
    {
        let Some(active) = self.active_instance(ticket) else {
            return Err(NoSuchTicket);
        };
        Ok(self.row_at(active.start, cell))
    }

    /// The rows of a region for a ticket's instance, in the order of their cells, its own changes
    /// aside.
    pub fn scan(&self, ticket: &Ticket, region: &Region) -> Result<Sequence<(Cell, i64)>, ScanFault>
        ensures { IsRegionRead (rows_for self.now ticket.now region.now) result }
    {
        let Some(active) = self.active_instance(ticket) else {
            return Err(ScanFault::NoSuchTicket);
        };
        Ok(self.rows_in(active.start, region)?)
    }

    /// Reads as `scan` does, in pieces, which others may share.
    pub fn scan_pieces(&self, ticket: &Ticket, region: &Region) -> Result<RowPieces, ScanFault>
        ensures { IsRegionRead (rows_for self.now ticket.now region.now) result }
    {
        let Some(active) = self.active_instance(ticket) else {
            return Err(ScanFault::NoSuchTicket);
        };
        Ok(self.pieces_in(active.start, region)?)
    }

    /// Commits the instance of a ticket by its run, which is ready. The first refusal that applies
    /// is answered, and a clash ends the instance too.
    pub fn commit(&mut self, ticket: Ticket, run: Run<'a>) -> Result<Receipt, CommitFault<'a>>
        ensures ok { IfOk result (λ receipt.
            IsCommitted self.old self.new ticket run.entry receipt) }
        ensures err { IfErr result (λ fault.
            IsCommitFault self.old self.new ticket run.entry fault) }
    {
        let ready = is_ready(&run);
        if let Some(refusal) = self.refusal_of(&ticket, &run, ready) {
            return Err(refusal.of_commit(Unused { ticket, run }));
        }
        self.commit_handed(ticket, run)
    }

    /// Commits as `commit` does, for a caller that knows that the run found what its snapshot
    /// holds: that is not looked up again.
    pub fn commit_found(&mut self, ticket: Ticket, run: Run<'a>) -> Result<Receipt, CommitFault<'a>>
        requires found { IsFoundBy self.old ticket run }
        ensures ok { IfOk result (λ receipt.
            IsCommitted self.old self.new ticket run.entry receipt) }
        ensures err { IfErr result (λ fault.
            IsCommitFault self.old self.new ticket run.entry fault) }
    {
        let ready = is_ready(&run);
        if let Some(refusal) = self.refusal_by_program(&ticket, &run, ready) {
            return Err(refusal.of_commit(Unused { ticket, run }));
        }
        self.commit_handed(ticket, run)
    }

    // Commits by a run of the instance, and hands both back where memory lacks.
    fn commit_handed(&mut self, ticket: Ticket, run: Run<'a>) -> Result<Receipt, CommitFault<'a>>
        requires own { IsOfInstance self.old ticket run }
        requires ready { run.end ≡ Some End.Ready }
        ensures ok { IfOk result (λ receipt.
            IsCommitted self.old self.new ticket run.entry receipt) }
        ensures err { IfErr result (λ fault.
            IsCommitFault self.old self.new ticket run.entry fault) }
    {
        match self.commit_own(&ticket, &run) {
            Ok(receipt) => Ok(receipt),
            Err(OwnCommitFault::Clashed(clash)) => Err(CommitFault::Clashed(clash)),
            Err(OwnCommitFault::Memory) => Err(CommitFault::Memory(Unused { ticket, run })),
        }
    }

    /// Commits as `commit` does, for a caller that knows that the run is one of the instance: its
    /// program and arguments are not compared, and what it looked at is not looked up again.
    pub fn commit_own(&mut self, ticket: &Ticket, run: &Run<'_>) -> Result<Receipt, OwnCommitFault>
        requires own { IsOfInstance self.old ticket.now run.now }
        requires ready { run.now.end ≡ Some End.Ready }
        ensures ok { IfOk result (λ receipt.
            IsCommitted self.old self.new ticket.now run.now receipt) }
        ensures err { IfErr result (λ fault.
            IsOwnCommitFault self.old self.new ticket.now run.now fault) }
    {
        read_run(run);
        let row = self.own_row(ticket, run)?;
        if let Some(clash) = self.clash(row.start, run.changes()) {
            self.conclude(ticket.number, Ending::Clashed { row, clash })?;
            return Err(OwnCommitFault::Clashed(clash));
        }
        let number = self.install(ticket.number, row, run)?;
        Ok(Receipt { commit: number })
    }

    /// Ends the instance of a ticket by its run, which has aborted. The first refusal that applies
    /// is answered.
    pub fn end(&mut self, ticket: Ticket, run: Run<'a>) -> Result<(), EndFault<'a>>
        ensures ok { OnOk result (IsAborted self.old self.new ticket run.entry) }
        ensures err { IfErr result (λ fault.
            IsEndFault self.old self.new ticket run.entry fault) }
    {
        let aborted = has_aborted(&run);
        if let Some(refusal) = self.refusal_of(&ticket, &run, aborted) {
            return Err(refusal.of_end(Unused { ticket, run }));
        }
        self.end_handed(ticket, run)
    }

    /// Ends as `end` does, for a caller that knows that the run found what its snapshot holds:
    /// that is not looked up again.
    pub fn end_found(&mut self, ticket: Ticket, run: Run<'a>) -> Result<(), EndFault<'a>>
        requires found { IsFoundBy self.old ticket run }
        ensures ok { OnOk result (IsAborted self.old self.new ticket run.entry) }
        ensures err { IfErr result (λ fault.
            IsEndFault self.old self.new ticket run.entry fault) }
    {
        let aborted = has_aborted(&run);
        if let Some(refusal) = self.refusal_by_program(&ticket, &run, aborted) {
            return Err(refusal.of_end(Unused { ticket, run }));
        }
        self.end_handed(ticket, run)
    }

    // Ends by a run of the instance, and hands both back where memory lacks.
    fn end_handed(&mut self, ticket: Ticket, run: Run<'a>) -> Result<(), EndFault<'a>>
        requires own { IsOfInstance self.old ticket run }
        requires aborted { HasAborted run }
        ensures ok { OnOk result (IsAborted self.old self.new ticket run.entry) }
        ensures err { IfErr result (λ fault.
            IsEndFault self.old self.new ticket run.entry fault) }
    {
        match self.end_own(&ticket, &run) {
            Ok(()) => Ok(()),
            Err(_) => Err(EndFault::Memory(Unused { ticket, run })),
        }
    }

    /// Ends as `end` does, for a caller that knows that the run is one of the instance: its
    /// program and arguments are not compared, and what it looked at is not looked up again.
    pub fn end_own(&mut self, ticket: &Ticket, run: &Run<'_>) -> Result<(), AllocError>
        requires own { IsOfInstance self.old ticket.now run.now }
        requires aborted { HasAborted run.now }
        ensures ok { OnOk result (IsAborted self.old self.new ticket.now run.now) }
        ensures err { OnErr result (self.new ≡ self.old) }
    {
        let Some(cause) = cause_of(run) else {
            unreachable!()
        };
        let row = self.own_row(ticket, run)?;
        self.conclude(ticket.number, Ending::Aborted { row, cause })?;
        Ok(())
    }

    /// Withdraws the instance of a ticket, which leaves no ending. A ticket of no active instance
    /// is handed back.
    pub fn withdraw(&mut self, ticket: Ticket) -> Result<(), Ticket>
        ensures { IsWithdrawal self.old self.new ticket result }
    {
        if self.active_instance(&ticket).is_none() {
            return Err(ticket);
        }
        self.active.remove(ticket.number);
        Ok(())
    }

    /// Drops the versions that neither an active instance sees nor one that will be begun, and
    /// answers how many they were. No instance begins below the new floor.
    pub fn vacuum(&mut self) -> u64
        ensures count { result ≡ reclaimed self.old.opening (commits_in self.old) self.old.floor
            (least_start (length self.old.rows) self.old.active) }
        ensures floor { self.new ≡ vacuumed self.old }
    {
        let floor = self.oldest_start();
        self.store.vacuum(floor)
    }

    // The least start of an active instance, or the number of commits.
    fn oldest_start(&self) -> u64
        ensures least { result ≡ least_start (length self.now.rows) self.now.active }
        ensures above { self.now.floor ≤ result }
        ensures within { result ≤ length self.now.rows }
    {
        self.active.least_start(self.store.commits())
    }
}
