//! What active instances see, and whether runs are theirs.

ghost use Rattle.std.specs.Prelude.{◌≡◌, ◌≤◌, ◌↔◌, length, Some, true, IfOk, IfNone, IfSome};
ghost use Rattle.std.specs.Prelude.{IsTrue, option_copied, MatchOption};
ghost use Rattle.prog_tree.specs.Evaluation.{rows_left};
ghost use Rattle.prog_tree.specs.Table.{row_at, rows_in};
ghost use Rattle.prog_run.specs.Looks.{IsFound, AreFound, last_look};
ghost use Rattle.version_store.specs.Clash.{IsClash};
ghost use Rattle.version_store.specs.Told.{told};
ghost use Rattle.prog_tree.specs.Tree.{draft_tree};
ghost use Rattle.history_book.specs.History.{IsCalled};
ghost use Rattle.history_book.specs.Refusals.{IsOfInstance, IsOfProgram, IsRefusal};
ghost use Rattle.history_book.specs.Runs.{IsFirstForeign, SameProgram, IsEndedRow};
ghost use Rattle.history_book.specs.View.{row_of, active_at, commits_in, state_in};

use crate::book::Book;
use crate::fault::{Difference, EndRefusal};
use crate::instances::active::Active;
use crate::instances::row::{HistoryRow, same_numbers};
use crate::instances::ticket::Ticket;
use prog_run::Run;
use prog_tree::{Cell, Changes, Look, Region, RisingCells, RowPieces, Sequence, same_tables};
use std::alloc::AllocError;
use version_store::Clash;

// Whether the last of some looks is this one.
fn is_last(looks: &[Look], look: &Look) -> bool
    ensures { IsTrue result ↔ (last_look looks.now ≡ Some look.now) }
{
    looks.last().is_some_and(|last| last.is_same(look))
}

impl<'a> Book<'a> {
    /// The active instance that has a ticket's number and start.
    pub(crate) fn active_instance(&self, ticket: &Ticket) -> Option<&Active>
        ensures same { option_copied result ≡ active_at self.now ticket.now }
        ensures start { IfSome result (λ active. active.now.start ≡ ticket.now.start) }
        ensures called { IfSome result (λ active. IsCalled (draft_tree self.now.set) active.now) }
        ensures above { IfSome result (λ active. self.now.floor ≤ active.now.start) }
        ensures within { IfSome result (λ active. active.now.start ≤ length self.now.rows) }
    {
        let active = self.active.get(ticket.number)?;
        if active.start == ticket.start {
            Some(active)
        } else {
            None
        }
    }

    /// What a cell holds after the first `start` commits.
    pub(crate) fn row_at(&self, start: u64, cell: &Cell) -> Option<i64>
        requires above { self.now.floor ≤ start }
        requires within { start ≤ length self.now.rows }
        ensures { result ≡ row_at (state_in self.now start) cell.now }
    {
        self.store.get(start, cell)
    }

    /// The rows of a region after the first `start` commits.
    pub(crate) fn rows_in(
        &self,
        start: u64,
        region: &Region,
    ) -> Result<Sequence<(Cell, i64)>, AllocError>
        requires above { self.now.floor ≤ start }
        requires within { start ≤ length self.now.rows }
        ensures { IfOk result (λ rows. rows ≡ rows_in region.now (state_in self.now start)) }
    {
        self.store.scan(start, region)
    }

    /// The same in pieces.
    pub(crate) fn pieces_in(&self, start: u64, region: &Region) -> Result<RowPieces, AllocError>
        requires above { self.now.floor ≤ start }
        requires within { start ≤ length self.now.rows }
        ensures { IfOk result (λ rows. rows ≡ rows_in region.now (state_in self.now start)) }
    {
        self.store.scan_pieces(start, region)
    }

    /// The clash of what an instance changes and keeps with the commits above its start.
    pub(crate) fn clash(&self, start: u64, changes: &Changes) -> Option<Clash>
        requires above { self.now.floor ≤ start }
        requires within { start ≤ length self.now.rows }
        ensures { IsClash (commits_in self.now) start changes.now (told result) }
    {
        self.store.clash(start, changes)
    }

    // Whether some rows are those of a region after the first `start` commits, but for those of
    // some `own` cells.
    fn are_held(&self, start: u64, region: &Region, own: &RisingCells, rows: &RowPieces) -> bool
        requires above { self.now.floor ≤ start }
        requires within { start ≤ length self.now.rows }
        ensures { IsTrue result
            ↔ (rows_left region.now own.now (state_in self.now start) ≡ rows.now) }
    {
        self.store.are_held(start, region, own, rows)
    }

    // Whether a look found what is held after the first `start` commits.
    fn is_found(&self, start: u64, look: &Look) -> bool
        requires above { self.now.floor ≤ start }
        requires within { start ≤ length self.now.rows }
        ensures { IsTrue result ↔ IsFound (state_in self.now start) look.now }
    {
        match look {
            Look::One(cell, held) => self.row_at(start, cell) == *held,
            Look::Range { region, own, rows } => self.are_held(start, region, own, rows),
        }
    }

    // The same of a look behind others that did: one that is at once repeated finds the same.
    fn is_found_next(&self, start: u64, before: &[Look], look: &Look) -> bool
        requires above { self.now.floor ≤ start }
        requires within { start ≤ length self.now.rows }
        requires found { AreFound (state_in self.now start) before.now }
        ensures { IsTrue result ↔ IsFound (state_in self.now start) look.now }
    {
        if is_last(before, look) {
            return true;
        }
        self.is_found(start, look)
    }

    // The first look that did not find what is held after the first `start` commits.
    fn foreign_look(&self, start: u64, looks: &[Look]) -> Option<usize>
        requires above { self.now.floor ≤ start }
        requires within { start ≤ length self.now.rows }
        ensures { MatchOption result
            (AreFound (state_in self.now start) looks.now)
            (λ number. IsFirstForeign (state_in self.now start) looks.now number) }
    {
        for (number, look) in looks.iter().enumerate() {
            if !self.is_found_next(start, &looks[..number], look) {
                return Some(number);
            }
        }
        None
    }

    // Whether a run has the program and the arguments of an instance, and the tables of the set.
    fn has_program(&self, active: &Active, run: &Run<'_>) -> bool
        ensures { IsTrue result ↔ SameProgram self.now active.now run.now }
    {
        let draft = self.set.draft();
        let Some(program) = draft.programs.get(active.program) else {
            return false;
        };
        if !same_tables(run.tables(), &draft.tables) {
            return false;
        }
        if !same_numbers(run.args(), active.args.as_slice()) {
            return false;
        }
        run.program().is_same(program)
    }

    /// The first reason why a ticket and a run do not end an instance, what the run looked at
    /// aside, where `ended` says whether the run has ended as it has to.
    pub(crate) fn refusal_by_program(
        &self,
        ticket: &Ticket,
        run: &Run<'_>,
        ended: bool,
    ) -> Option<EndRefusal>
        ensures refused { IfSome result (λ refusal.
            IsRefusal self.now ticket.now run.now ended refusal) }
        ensures ended { IfNone result (ended ≡ true) }
        ensures same { IfNone result (IsOfProgram self.now ticket.now run.now) }
        ensures above { IfNone result (self.now.floor ≤ ticket.now.start) }
        ensures within { IfNone result (ticket.now.start ≤ length self.now.rows) }
    {
        let Some(active) = self.active_instance(ticket) else {
            return Some(EndRefusal::NoSuchTicket);
        };
        if !ended {
            return Some(EndRefusal::WrongEnd);
        }
        if !self.has_program(active, run) {
            return Some(EndRefusal::ForeignRun(Difference::Program));
        }
        None
    }

    /// The first reason, with what the run looked at.
    pub(crate) fn refusal_of(
        &self,
        ticket: &Ticket,
        run: &Run<'_>,
        ended: bool,
    ) -> Option<EndRefusal>
        ensures refused { IfSome result (λ refusal.
            IsRefusal self.now ticket.now run.now ended refusal) }
        ensures ended { IfNone result (ended ≡ true) }
        ensures own { IfNone result (IsOfInstance self.now ticket.now run.now) }
    {
        if let Some(refusal) = self.refusal_by_program(ticket, run, ended) {
            return Some(refusal);
        }
        let number = self.foreign_look(ticket.start, run.looks())?;
        Some(EndRefusal::ForeignRun(Difference::Look(number)))
    }

    /// The row of the instance that a ticket and its own run end.
    pub(crate) fn own_row(&self, ticket: &Ticket, run: &Run<'_>) -> Result<HistoryRow, AllocError>
        requires { IsOfInstance self.now ticket.now run.now }
        ensures row { IfOk result (λ row. IsEndedRow self.now ticket.now run.now row) }
        ensures above { IfOk result (λ row. self.now.floor ≤ row.start) }
        ensures within { IfOk result (λ row. row.start ≤ length self.now.rows) }
    {
        let Some(active) = self.active_instance(ticket) else {
            unreachable!()
        };
        Ok(self.row(active, run)?)
    }

    // The row of an instance, with the replies of a run.
    fn row(&self, active: &Active, run: &Run<'_>) -> Result<HistoryRow, AllocError>
        ensures { IfOk result (λ row. row ≡ row_of active.now run.now.replies) }
    {
        Ok(HistoryRow {
            program: active.program,
            args: active.args.copy()?,
            start: active.start,
            replies: Sequence::from_slice(self.alloc, run.replies())?,
        })
    }
}
