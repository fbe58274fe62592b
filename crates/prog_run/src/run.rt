//! Runs of programs.
ghost use Rattle.std.specs.Prelude.{◌≡◌, ◌<◌, Some, None, IfOk, IfSome, OnErr, length, zip};
ghost use Rattle.std.specs.Prelude.{slice_get, option_copied};
ghost use Rattle.prog_tree.specs.Table.{TableState, rows_in};
ghost use Rattle.prog_run.specs.Cursor.{BeginsWith};
ghost use Rattle.prog_run.specs.Looks.{AreFound, IsFoundLast};
ghost use Rattle.prog_run.specs.View.{IsTrueRun, IsAdvance, SameBegin, begun, IsHeldAnswered};
ghost use Rattle.prog_run.specs.View.{IsRowsAnswered, AsksUnchanged, IsRefusedBy, IsRunRefusedBy};
ghost use Rattle.prog_run.specs.View.{begin_fault, get_fault, scan_fault, asked_cell, asked_region};
ghost use Rattle.prog_run.specs.View.{standing_next};

use crate::block::OpenBlock;
use crate::cursor::Cursor;
use crate::fault::{AnswerFault, RunFault};
use crate::next::Next;
use crate::region::{are_in, found_last};
use crate::statement::answer_cell;
use crate::task::Asked;
use prog_check::ProgramSet;
use prog_tree::{
    Cell, Changes, End, Env, Look, Name, Program, Progress, Region, RowPieces, Sequence, TableDecl,
};
use std::alloc::{AllocError, Global};
use std::marker::Model;

/// One instance of a program, as far as it has run.
#[derive(Debug, Drop)]
pub struct Run<'a> {
    set: &'a ProgramSet,
    program: &'a Program,
    args: Sequence<i64>,
    cursor: Cursor<'a>,
    progress: Progress<'a>,
    asked: Option<Asked<'a>>,
    end: Option<End>,
}

impl<'a> Model for Run<'a> {
    ghost use Rattle.prog_run.specs.View.{RunView, question_in, IsTrueTo, IsWaiting};
    ghost use Rattle.prog_run.specs.Cursor.{cursor_tree};
    ghost use Rattle.prog_tree.specs.Tree.{program_tree};
    ghost use Rattle.prog_tree.specs.contracts.stmt.Stmt as stmt;
    ghost use Rattle.std.specs.Coded.{codes};

    ghost Value = { RunView };

    ghost coded = { Prim.hlevel (codes, stmt.the_row.coded) };

    ghost view = { λ r. record {
      tables = r.set.now.tables.items;
      program = r.program.now;
      args = r.args;
      deeds = r.progress.deeds;
      replies = r.progress.replies;
      changes = r.progress.changes;
      looks = r.progress.looks;
      asked = question_in r.asked;
      end = r.end;
    } };

    ghost invariant = { λ r. IsTrueTo r.set.now.tables.items (program_tree r.program.now)
        r.args r.end (cursor_tree r.cursor) r.progress
        × IsWaiting r.set.now.tables.items r.asked r.end (cursor_tree r.cursor) r.progress };
}

// For how many statements a run makes room at most before it has done any.
const MOST_FIRST_STATEMENTS: usize = 16;

// The parameters with their arguments, with room for so many names more.
fn bind_all<'a>(
    alloc: Global,
    params: &'a [Name],
    args: &[i64],
    more: usize,
) -> Result<Env<'a>, AllocError>
    requires { length params.now ≡ length args.now }
    ensures { IfOk result (λ env. env ≡ zip params.now args.now) }
{
    let mut env = Env::with_capacity(alloc, params.len().saturating_add(more))?;
    for (i, name) in params.iter().enumerate() {
        env.bind(name, args[i])?;
    }
    Ok(env)
}

impl<'a> Run<'a> {
    /// A run of the program of a number, before its first statement.
    pub fn new(
        alloc: Global,
        set: &'a ProgramSet,
        program: usize,
        args: &[i64],
    ) -> Result<Self, RunFault>
        ensures refused { IsRunRefusedBy
            (begin_fault (slice_get set.now.programs.items program) args.now) result }
        ensures begun { IfOk result (λ run. run ≡ begun set.now.tables.items run.program args.now) }
        ensures program { IfOk result
            (λ run. slice_get set.now.programs.items program ≡ Some run.program) }
    {
        let Some(program) = set.draft().programs.get(program) else {
            return Err(RunFault::NoSuchProgram);
        };
        if program.params.len() != args.len() {
            return Err(RunFault::WrongArguments);
        }
        let body = program.body.stmts.as_slice();
        let room = body.len().min(MOST_FIRST_STATEMENTS);
        let env = bind_all(alloc, &program.params, args, room)?;
        Ok(Run {
            set,
            program,
            args: Sequence::from_slice(alloc, args)?,
            cursor: Cursor {
                here: OpenBlock {
                    rest: body,
                    scope: args.len(),
                    turns: None,
                },
                outer: Vec::new(alloc),
            },
            progress: Progress::with_room(alloc, env, room)?,
            asked: None,
            end: None,
        })
    }

    /// Goes on up to the next store statement, and finishes it or asks for what it looks at. While
    /// an answer is awaited it repeats the question, and after the end the end. After want of
    /// memory it can be called again.
    pub fn advance(&mut self) -> Result<Next, AllocError>
        ensures advance { IfOk result (λ next. IsAdvance next self.old self.new) }
        ensures unchanged { IfOk result (λ next. AsksUnchanged next self.new) }
        ensures repeats { IfSome (standing_next self.old)
            (λ next. (result ≡ Ok next) × (self.new ≡ self.old)) }
        ensures true_run { IsTrueRun self.new }
        ensures same { SameBegin self.old self.new }
        ensures err { OnErr result (self.new ≡ record self.old { replies = self.new.replies }) }
        ensures err_replies { OnErr result (BeginsWith self.old.replies self.new.replies) }
    {
        if let Some(asked) = self.asked {
            return Ok(asked.next());
        }
        if let Some(end) = self.end {
            return Ok(Next::Done(end));
        }
        let step = self.cursor.step(self.set, &mut self.progress)?;
        self.asked = step.asked();
        self.end = step.end();
        Ok(step.next())
    }

    /// Answers the question for a cell with what it holds in the snapshot, and finishes the
    /// statement.
    pub fn answer_get(&mut self, held: Option<i64>) -> Result<Next, AnswerFault>
        ensures refused { IsRefusedBy (get_fault (asked_cell self.old.asked)) result }
        ensures answered { IfOk result (λ next. IsHeldAnswered held next self.old self.new) }
        ensures true_run { IsTrueRun self.new }
        ensures same { SameBegin self.old self.new }
        ensures err { OnErr result (self.new ≡ self.old) }
    {
        let Some(Asked::OfCell { cell, usage }) = self.asked else {
            return Err(AnswerFault::NotAsked);
        };
        let step = answer_cell(&mut self.progress, cell, usage, held)?;
        self.cursor.go_on(step);
        self.asked = None;
        self.end = step.end();
        Ok(step.next())
    }

    /// Answers the question for a region with its rows in the snapshot, and finishes the statement;
    /// of an `each` that is its listing. The rows become those of its look.
    pub fn answer_scan(&mut self, rows: Sequence<(Cell, i64)>) -> Result<Next, AnswerFault>
        ensures refused { IsRefusedBy (scan_fault (asked_region self.old.asked) rows) result }
        ensures answered { IfOk result (λ next. IsRowsAnswered rows next self.old self.new) }
        ensures true_run { IsTrueRun self.new }
        ensures same { SameBegin self.old self.new }
        ensures err { OnErr result (self.new ≡ self.old) }
    {
        if let Some(fault) = self.rows_fault(rows.as_slice()) {
            return Err(fault);
        }
        let rows = RowPieces::from_list(rows)?;
        Ok(self.answer_rows(rows)?)
    }

    // The region whose rows it asks for, if it does.
    fn asked_region(&self) -> Option<Region>
        ensures region { result ≡ asked_region self.now.asked }
        ensures true_run { IsTrueRun self.now }
    {
        let asked = self.asked?;
        asked.region()
    }

    // What is wrong with an answer of these rows.
    fn rows_fault(&self, rows: &[(Cell, i64)]) -> Option<AnswerFault>
        ensures fault { result ≡ scan_fault (asked_region self.now.asked) rows.now }
        ensures true_run { IsTrueRun self.now }
    {
        let Some(region) = self.asked_region() else {
            return Some(AnswerFault::NotAsked);
        };
        if are_in(&region, rows) {
            return None;
        }
        Some(AnswerFault::BadRows)
    }

    /// Answers as `answer_scan` does, for a caller that knows that the run asks for rows, and that
    /// these lie in its region: they are not tested.
    pub fn answer_rows(&mut self, rows: RowPieces) -> Result<Next, AllocError>
        requires { scan_fault (asked_region self.old.asked) rows ≡ None }
        ensures answered { IfOk result (λ next. IsRowsAnswered rows next self.old self.new) }
        ensures true_run { IsTrueRun self.new }
        ensures same { SameBegin self.old self.new }
        ensures err { OnErr result (self.new ≡ self.old) }
    {
        let Some(Asked::OfRegion { region, usage }) = self.asked else {
            unreachable!()
        };
        let step = self
            .cursor
            .answer_region(&mut self.progress, region, usage, rows)?;
        self.asked = None;
        self.end = step.end();
        Ok(step.next())
    }

    /// The program that it runs.
    pub fn program(&self) -> &'a Program
        ensures { result.now ≡ self.now.program }
    {
        self.program
    }

    /// The tables of the set, which cells name by their numbers.
    pub fn tables(&self) -> &'a [TableDecl]
        ensures { result.now ≡ self.now.tables }
    {
        &self.set.draft().tables
    }

    /// The arguments that it was begun with.
    pub fn args(&self) -> &[i64]
        ensures { result.now ≡ self.now.args }
    {
        self.args.as_slice()
    }

    /// How many store statements are finished.
    pub fn done(&self) -> usize
        ensures count { result ≡ length self.now.deeds }
        ensures true_run { IsTrueRun self.now }
    {
        self.progress.deeds.len()
    }

    /// What the run found in its snapshot, in order.
    pub fn looks(&self) -> &[Look]
        ensures { result.now ≡ self.now.looks }
    {
        self.progress.looks.as_slice()
    }

    /// The rows of a region, where the last look was at just this one and the run had changed
    /// nothing there: the snapshot holds what that look found.
    pub fn rows_again(&self, region: &Region) -> Option<&RowPieces>
        ensures last { IsFoundLast self.now.looks region.now (option_copied result) }
        ensures held { IfSome result (λ rows. (m : TableState) →
            AreFound m self.now.looks → rows.now ≡ rows_in region.now m) }
    {
        found_last(self.looks(), region)
    }

    /// The cells that it has set, removed or kept.
    pub fn changes(&self) -> &Changes
        ensures { result.now ≡ self.now.changes }
    {
        &self.progress.changes
    }

    /// Its replies so far, in order.
    pub fn replies(&self) -> &[i64]
        ensures { result.now ≡ self.now.replies }
    {
        self.progress.replies.as_slice()
    }

    /// How it ended, if it has.
    pub fn end(&self) -> Option<&End>
        ensures value { option_copied result ≡ self.now.end }
        ensures true_run { IsTrueRun self.now }
    {
        self.end.as_ref()
    }
}
