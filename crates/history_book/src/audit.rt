//! The audit of given rows.

ghost use Rattle.std.specs.Prelude.{◌≡◌, ◌<◌, ◌≤◌, [], length, IfOk, IfErr, OnOk, MatchOption};
ghost use Rattle.prog_tree.specs.Tree.{draft_tree};
ghost use Rattle.history_book.specs.Audit.{CameTo, audited, taken_up, CanBeginIn, IsRightIn};
ghost use Rattle.history_book.specs.Audit.{IsRowFaultIn, IsRowRefusal, AreRightBehind};
ghost use Rattle.history_book.specs.Audit.{IsAuditFault};
ghost use Rattle.history_book.specs.View.{done_in, instance_of, most_endings, most_begins};

use crate::book::{Book, is_ready, read_numbers};
use crate::instances::row::{HistoryRow, same_numbers};
use crate::limits::MAX_ENDINGS;
use prog_check::ProgramSet;
use prog_run::Run;
use prog_tree::Rows;
use std::alloc::{AllocError, Global};
use std::error::Error;
use std::fmt;
use version_store::Clash;

/// What is wrong with a row.
#[derive(Clone, Copy, Debug, PartialEq, Eq)]
pub enum RowFault {
    /// The set has no program of the number.
    NoSuchProgram,
    /// There are more or fewer arguments than parameters.
    WrongArguments,
    /// There are fewer rows before it than commits that it sees.
    StartTooLate,
    /// Its program aborts.
    NotReady,
    /// Its program replies something else.
    WrongReplies,
    /// A row above its start changed or kept a cell that it changes or keeps.
    Clashed(Clash),
}

impl fmt::Display for RowFault {
    ghost use Rattle.std.specs.Prelude.{Some};
    ghost use Rattle.history_book.specs.Texts.{row_fault_text};

    ghost output = { λ fault. Some (row_fault_text fault) };

    fn fmt<W: fmt::Write>(&self, f: &mut fmt::Formatter<W>) -> fmt::Result {
        match self {
            RowFault::NoSuchProgram => f.write_str("H1"),
            RowFault::WrongArguments => f.write_str("H2"),
            RowFault::StartTooLate => f.write_str("H3"),
            RowFault::NotReady => f.write_str("H4"),
            RowFault::WrongReplies => f.write_str("H5"),
            RowFault::Clashed(_) => f.write_str("H6"),
        }
    }
}

impl Error for RowFault {}

/// Why rows have no book.
#[derive(Clone, Copy, Debug, PartialEq, Eq)]
pub enum AuditFault {
    /// There are more than 100,000.
    Full,
    /// The first row that is wrong; rows are numbered from 0.
    Row { number: usize, fault: RowFault },
    /// There was no memory for it.
    Memory,
}

impl From<AllocError> for AuditFault {
    ghost use Rattle.std.specs.Prelude.{◌≡◌};
    ghost use Rattle.history_book.specs.declared.audit.AuditFault.TheVariants.{Memory};

    ghost from_gives = { λ _ e. e ≡ Memory };

    fn from(_: AllocError) -> Self {
        AuditFault::Memory
    }
}

impl fmt::Display for AuditFault {
    ghost use Rattle.std.specs.Prelude.{Some};
    ghost use Rattle.history_book.specs.Texts.{audit_fault_text};

    ghost output = { λ fault. Some (audit_fault_text fault) };

    fn fmt<W: fmt::Write>(&self, f: &mut fmt::Formatter<W>) -> fmt::Result {
        match self {
            AuditFault::Full => f.write_str("H7"),
            AuditFault::Row { number, fault } => write!(f, "{fault} {number}"),
            AuditFault::Memory => f.write_str("memory"),
        }
    }
}

impl Error for AuditFault {}

impl<'a> Book<'a> {
    // What is wrong with a row's call, or with its start.
    fn call_fault(&self, row: &HistoryRow) -> Option<RowFault>
        ensures { MatchOption result (CanBeginIn self.now row.now)
            (IsRowFaultIn self.now row.now) }
    {
        read_numbers(row.args.as_slice());
        let Some(program) = self.program(row.program) else {
            return Some(RowFault::NoSuchProgram);
        };
        if program.params.len() != row.args.len() {
            return Some(RowFault::WrongArguments);
        }
        if row.start > self.commits() {
            return Some(RowFault::StartTooLate);
        }
        None
    }

    // What is wrong with what a row's run came to.
    fn run_fault(&self, row: &HistoryRow, run: &Run<'_>) -> Option<RowFault>
        requires begun { CanBeginIn self.now row.now }
        requires above { self.now.floor ≤ row.now.start }
        requires came { CameTo run.now (done_in self.now (instance_of row.now)) }
        ensures { MatchOption result (IsRightIn self.now row.now)
            (IsRowFaultIn self.now row.now) }
    {
        if !is_ready(run) {
            return Some(RowFault::NotReady);
        }
        if !same_numbers(row.replies.as_slice(), run.replies()) {
            return Some(RowFault::WrongReplies);
        }
        self.clash(row.start, run.changes()).map(RowFault::Clashed)
    }

    // Takes a row up as the next commit.
    fn add_row(&mut self, row: HistoryRow) -> Result<(), AuditFault>
        requires none { self.old.active ≡ [] }
        requires floor { self.old.floor ≡ 0 }
        requires room { length self.old.endings < most_endings }
        requires more { self.old.begun < most_begins }
        ensures right { OnOk result (IsRightIn self.old row) }
        ensures taken { OnOk result (self.new ≡ taken_up self.old row) }
        ensures refused { IfErr result (IsRowRefusal self.old row) }
    {
        let number = self.rows.len();
        if let Some(fault) = self.call_fault(&row) {
            return Err(AuditFault::Row { number, fault });
        }
        let run = self.replay(&row)?;
        if let Some(fault) = self.run_fault(&row, &run) {
            return Err(AuditFault::Row { number, fault });
        }
        self.take_up(row, &run)?;
        Ok(())
    }

    /// A book of given rows, each of which counts as a begin that succeeded and a commit.
    pub fn audit(
        alloc: Global,
        set: &'a ProgramSet,
        opening: Rows,
        rows: Vec<HistoryRow>,
    ) -> Result<Book<'a>, AuditFault>
        ensures book { IfOk result (λ book. book ≡ audited set.now opening rows.items) }
        ensures right { OnOk result
            (AreRightBehind (draft_tree set.now) opening [] rows.items) }
        ensures refused { IfErr result (λ fault.
            IsAuditFault (draft_tree set.now) opening rows.items fault) }
    {
        if rows.len() > MAX_ENDINGS {
            return Err(AuditFault::Full);
        }
        let mut book = Book::open(alloc, set, opening)?;
        for row in rows {
            book.add_row(row)?;
        }
        Ok(book)
    }
}
