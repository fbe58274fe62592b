//! Where a run stands in its program.
ghost use Rattle.std.specs.Prelude.{◌≡◌, true, [], ◌∷◌, ◌++◌, length, IfOk, OnOk, OnErr};
ghost use Rattle.std.specs.Prelude.{if◌then◌else◌};
ghost use Rattle.prog_tree.specs.Syntax.{Then, Branch, Bind, Reply};
ghost use Rattle.prog_tree.specs.Tree.{expr_tree, test_tree, listing_tree, block_tree, stmts_tree};
ghost use Rattle.prog_run.specs.Todo.{inside};
ghost use Rattle.prog_run.specs.Cursor.{open_tree, cursor_tree, is_store, KeepsStore, SameTodo};
ghost use Rattle.prog_run.specs.Cursor.{IsLocalStep, IsSettled, StepsOrStays};
ghost use Rattle.prog_run.specs.Looks.{region_look, seen_rows};
ghost use Rattle.prog_run.specs.Task.{Lists, region_use_tree};
ghost use Rattle.prog_run.specs.Statement.{IsRegionAnswered};
ghost use Rattle.prog_run.specs.Step.{cursor_after, cursor_behind, IsStep, IsUsed};

use crate::block::{OpenBlock, TurnNames, Turns, turns_over};
use crate::next::Step;
use crate::notes::note_turn;
use crate::region::{Found, look_at_region};
use crate::statement::{OVERFLOW, begin, count_rows, sum_rows};
use crate::task::{RegionUse, task_of};
use prog_check::ProgramSet;
use prog_tree::{
    Block, Cause, Deed, End, Expr, Listing, Look, Name, Progress, Region, RowPieces, Sequence,
    Stmt, Test,
};
use std::alloc::AllocError;
use std::mem;

/// The innermost open block, and those round it, the outermost first.
#[derive(Debug, Drop)]
pub struct Cursor<'a> {
    pub here: OpenBlock<'a>,
    pub outer: Vec<OpenBlock<'a>>,
}

/// Where a run stands after a step without the store.
#[derive(Clone, Copy, Debug, PartialEq, Eq)]
pub enum Standing {
    /// It has done a statement, begun a turn, or left a block.
    Moved,
    /// The next statement is one of the store.
    AtStore,
    /// The run is over.
    Over(End),
}

impl<'a> Cursor<'a> {
    // At the end of the innermost block begins its next turn, or leaves it.
    fn leave(&mut self, progress: &mut Progress<'a>) -> Result<Standing, AllocError>
        requires { self.old.here.rest.now ≡ [] }
        ensures step { IfOk result
            (λ s. IsLocalStep s (cursor_tree self.old) progress.old
            (cursor_tree self.new) progress.new) }
        ensures err { OnErr result
            (SameTodo (cursor_tree self.old) progress.old (cursor_tree self.new) progress.new) }
        ensures err_store { OnErr result (KeepsStore progress.old progress.new) }
    {
        progress.env.cut(self.here.scope);
        if let Some(turn) = self.here.next_turn() {
            let names = progress.env.len();
            note_turn(progress, turn)?;
            self.here.begin_turn(names);
            return Ok(Standing::Moved);
        }
        let Some(outer) = self.outer.pop() else {
            return Ok(Standing::Over(End::Ready));
        };
        self.here = outer;
        Ok(Standing::Moved)
    }

    // Enters a block, behind which the run goes on with `rest`.
    fn enter(&mut self, block: OpenBlock<'a>, rest: &'a [Stmt]) -> Result<(), AllocError>
        ensures ok { OnOk result (cursor_tree self.new ≡ inside (open_tree block.entry)
            (stmts_tree rest.now) (cursor_tree self.old)) }
        ensures err { OnErr result (cursor_tree self.new ≡ cursor_tree self.old) }
    {
        self.outer.reserve(1)?;
        let mut outer = mem::replace(&mut self.here, block);
        outer.rest = rest;
        self.outer.push_reserved(outer);
        Ok(())
    }

    // Binds a name to a value, and goes on with `rest`.
    fn bind(
        &mut self,
        progress: &mut Progress<'a>,
        name: &'a Name,
        value: &Expr,
        rest: &'a [Stmt],
    ) -> Result<Standing, AllocError>
        requires { stmts_tree self.old.here.rest.now
            ≡ Then (Bind name.now (expr_tree value.now)) (stmts_tree rest.now) }
        ensures { StepsOrStays result (cursor_tree self.old) progress.old (cursor_tree self.new)
            progress.new }
    {
        let Some(value) = value.value(&progress.env) else {
            return Ok(Standing::Over(OVERFLOW));
        };
        progress.env.bind(name, value)?;
        self.here.rest = rest;
        Ok(Standing::Moved)
    }

    // Replies a value, and goes on with `rest`.
    fn reply(
        &mut self,
        progress: &mut Progress<'a>,
        value: &Expr,
        rest: &'a [Stmt],
    ) -> Result<Standing, AllocError>
        requires { stmts_tree self.old.here.rest.now
            ≡ Then (Reply (expr_tree value.now)) (stmts_tree rest.now) }
        ensures { StepsOrStays result (cursor_tree self.old) progress.old (cursor_tree self.new)
            progress.new }
    {
        let Some(value) = value.value(&progress.env) else {
            return Ok(Standing::Over(OVERFLOW));
        };
        progress.replies.push(value)?;
        self.here.rest = rest;
        Ok(Standing::Moved)
    }

    // Enters the block of a branch that its test chooses, behind which the run goes on with `rest`.
    fn enter_branch(
        &mut self,
        progress: &Progress<'a>,
        test: &Test,
        then_block: &'a Block,
        otherwise: &'a Block,
        rest: &'a [Stmt],
    ) -> Result<Standing, AllocError>
        requires { stmts_tree self.old.here.rest.now ≡ Branch (test_tree test.now)
            (block_tree then_block.now) (block_tree otherwise.now) (stmts_tree rest.now) }
        ensures step { IfOk result
            (λ s. IsLocalStep s (cursor_tree self.old) progress.now
            (cursor_tree self.new) progress.now) }
        ensures err { OnErr result (cursor_tree self.new ≡ cursor_tree self.old) }
    {
        let Some(holds) = test.holds(&progress.env) else {
            return Ok(Standing::Over(OVERFLOW));
        };
        let block = OpenBlock {
            rest: chosen_block(holds, then_block, otherwise).stmts.as_slice(),
            scope: progress.env.len(),
            turns: None,
        };
        self.enter(block, rest)?;
        Ok(Standing::Moved)
    }

    // Does a statement without the store; at the end of a block begins its next turn, or leaves
    // it.
    fn local_step(&mut self, progress: &mut Progress<'a>) -> Result<Standing, AllocError>
        ensures step { IfOk result
            (λ s. IsLocalStep s (cursor_tree self.old) progress.old
            (cursor_tree self.new) progress.new) }
        ensures err { OnErr result
            (SameTodo (cursor_tree self.old) progress.old (cursor_tree self.new) progress.new) }
        ensures err_store { OnErr result (KeepsStore progress.old progress.new) }
    {
        let Some((stmt, rest)) = self.here.rest.split_first() else {
            return self.leave(progress);
        };
        match stmt {
            Stmt::Bind { name, value } => self.bind(progress, name, value, rest),
            Stmt::Reply { value } => self.reply(progress, value, rest),
            Stmt::Abort => Ok(Standing::Over(End::Aborted(Cause::Asked))),
            Stmt::Branch {
                test,
                then,
                otherwise,
            } => self.enter_branch(progress, test, then, otherwise, rest),
            Stmt::Get { .. }
            | Stmt::Need { .. }
            | Stmt::Count { .. }
            | Stmt::Sum { .. }
            | Stmt::Lacks { .. }
            | Stmt::Put { .. }
            | Stmt::Insert { .. }
            | Stmt::Delete { .. }
            | Stmt::Keep { .. }
            | Stmt::Each { .. } => Ok(Standing::AtStore),
        }
    }

    // Goes on to the next statement of the store, or to the end.
    fn settle(&mut self, progress: &mut Progress<'a>) -> Result<Option<End>, AllocError>
        ensures settled { IfOk result
            (λ end. IsSettled end (cursor_tree self.old) progress.old
            (cursor_tree self.new) progress.new) }
        ensures keeps { KeepsStore progress.old progress.new }
        ensures err { OnErr result
            (SameTodo (cursor_tree self.old) progress.old (cursor_tree self.new) progress.new) }
    {
        'steps: loop {
            match self.local_step(progress)? {
                Standing::Moved => {}
                Standing::AtStore => return Ok(None),
                Standing::Over(end) => return Ok(Some(end)),
            }
        }
    }

    // Does the statement of the store at which the run stands, or asks what it has to know.
    fn store_step(
        &mut self,
        set: &ProgramSet,
        progress: &mut Progress<'a>,
    ) -> Result<Step<'a>, AllocError>
        requires { is_store (cursor_tree self.old).here.rest ≡ true }
        ensures step { IfOk result
            (λ s. IsStep set.now.tables.items s (cursor_tree self.old) progress.old
            (cursor_tree self.new) progress.new) }
        ensures looks { progress.new.looks ≡ progress.old.looks }
        ensures err { OnErr result (cursor_tree self.new ≡ cursor_tree self.old) }
        ensures err_progress { OnErr result (progress.new ≡ progress.old) }
    {
        let Some((stmt, rest)) = self.here.rest.split_first() else {
            unreachable!()
        };
        let Some(task) = task_of(set, stmt, &progress.env) else {
            return Ok(Step::Over(OVERFLOW));
        };
        let step = begin(progress, task)?;
        self.go_on(step);
        Ok(step)
    }

    /// Goes on behind a statement that is done.
    pub fn go_on(&mut self, step: Step<'a>)
        ensures { cursor_tree self.new ≡ cursor_after step.entry (cursor_tree self.old) }
    {
        let Step::Did(_) = step else { return };
        self.here.rest = self.here.behind();
    }

    /// Goes on to the next statement of the store, and does it or asks for what it needs.
    pub fn step(
        &mut self,
        set: &ProgramSet,
        progress: &mut Progress<'a>,
    ) -> Result<Step<'a>, AllocError>
        ensures step { IfOk result
            (λ s. IsStep set.now.tables.items s (cursor_tree self.old) progress.old
            (cursor_tree self.new) progress.new) }
        ensures looks { progress.new.looks ≡ progress.old.looks }
        ensures err { OnErr result
            (SameTodo (cursor_tree self.old) progress.old (cursor_tree self.new) progress.new) }
        ensures err_store { OnErr result (KeepsStore progress.old progress.new) }
    {
        if let Some(end) = self.settle(progress)? {
            return Ok(Step::Over(end));
        }
        self.store_step(set, progress)
    }

    /// Finishes a statement that has asked for a region's rows; of an `each` the turns are opened.
    pub fn answer_region(
        &mut self,
        progress: &mut Progress<'a>,
        region: Region,
        usage: RegionUse<'a>,
        rows: RowPieces,
    ) -> Result<Step<'a>, AllocError>
        ensures flow { IfOk result
            (λ s. IsRegionAnswered (region_use_tree usage.entry) region rows s progress.old
            progress.new) }
        ensures cursor { IfOk result
            (λ s. cursor_tree self.new ≡ cursor_behind (region_use_tree usage.entry)
            (seen_rows progress.old.changes region rows) (length progress.old.env) s
            (cursor_tree self.old)) }
        ensures err { OnErr result (cursor_tree self.new ≡ cursor_tree self.old) }
        ensures err_progress { OnErr result (progress.new ≡ progress.old) }
    {
        let none = Sequence::new(*self.outer.allocator());
        let mut looks = mem::replace(&mut progress.looks, none).into_vec();
        let step = self.look(progress, &mut looks, region, usage, rows);
        progress.looks = Sequence::from_vec(looks);
        step
    }

    // Goes on with the rows that the run sees in a region, and then notes the look, which takes
    // them. The looks stand aside for that.
    fn look(
        &mut self,
        progress: &mut Progress<'a>,
        looks: &mut Vec<Look>,
        region: Region,
        usage: RegionUse<'a>,
        rows: RowPieces,
    ) -> Result<Step<'a>, AllocError>
        ensures look { OnOk result (looks.new.items
            ≡ looks.old.items ++ region_look progress.old.changes region rows ∷ []) }
        ensures used { IfOk result
            (λ s. IsUsed (region_use_tree usage.entry) region
            (seen_rows progress.old.changes region rows) s (cursor_tree self.old) progress.old
            (cursor_tree self.new) progress.new) }
        ensures err { OnErr result (cursor_tree self.new ≡ cursor_tree self.old) }
        ensures err_progress { OnErr result (progress.new ≡ progress.old) }
        ensures err_looks { OnErr result (looks.new.items ≡ looks.old.items) }
    {
        looks.reserve(1)?;
        let alloc = *self.outer.allocator();
        let found = look_at_region(alloc, &progress.changes, region, rows)?;
        let step = self.use_rows(progress, region, usage, found.seen_rows())?;
        let Found { own, rows, .. } = found;
        looks.push_reserved(Look::Range { region, own, rows });
        Ok(step)
    }

    // Goes on with the rows that the run sees in a region.
    fn use_rows(
        &mut self,
        progress: &mut Progress<'a>,
        region: Region,
        usage: RegionUse<'a>,
        rows: &RowPieces,
    ) -> Result<Step<'a>, AllocError>
        ensures used { IfOk result
            (λ s. IsUsed (region_use_tree usage.entry) region rows.now s (cursor_tree self.old)
            progress.old (cursor_tree self.new) progress.new) }
        ensures err { OnErr result (cursor_tree self.new ≡ cursor_tree self.old) }
        ensures err_progress { OnErr result (progress.new ≡ progress.old) }
    {
        let step = match usage {
            RegionUse::Count { name } => count_rows(progress, region, name, rows)?,
            RegionUse::Sum { name } => sum_rows(progress, region, name, rows)?,
            RegionUse::List { listing, body } => {
                return self.list(progress, region, listing, body, rows);
            }
        };
        self.go_on(step);
        Ok(step)
    }

    // The rows of an `each` are listed: the run stands before its turns, behind which it goes on
    // with the rest.
    fn list(
        &mut self,
        progress: &mut Progress<'a>,
        region: Region,
        listing: &'a Listing,
        body: &'a Block,
        rows: &RowPieces,
    ) -> Result<Step<'a>, AllocError>
        ensures listed { IfOk result
            (λ s. IsUsed (Lists (listing_tree listing.now) (block_tree body.now)) region rows.now s
            (cursor_tree self.old) progress.old (cursor_tree self.new) progress.new) }
        ensures err { OnErr result (cursor_tree self.new ≡ cursor_tree self.old) }
        ensures err_progress { OnErr result (progress.new ≡ progress.old) }
    {
        let left = turns_over(*self.outer.allocator(), &listing.range, rows)?;
        let names = TurnNames {
            key: &listing.key,
            value: &listing.value,
        };
        let block = OpenBlock {
            rest: &[],
            scope: progress.env.len(),
            turns: Some(Turns { names, body, left }),
        };
        let deed = Deed::Listed(region, rows.len() as u64);
        let deeds = progress.deeds.len();
        progress.deeds.push(deed)?;
        let rest = self.here.behind();
        let Ok(()) = self.enter(block, rest) else {
            progress.deeds.truncate(deeds);
            return Err(AllocError);
        };
        Ok(Step::Did(deed))
    }
}

// The block of a branch whose test holds, or not.
fn chosen_block<'a>(holds: bool, then_block: &'a Block, otherwise: &'a Block) -> &'a Block
    ensures { result.now ≡ (if holds then then_block.now else otherwise.now) }
{
    if holds { then_block } else { otherwise }
}
