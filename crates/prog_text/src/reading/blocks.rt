//! Blocks within blocks, read by a loop with a stack of those that are open.

ghost use Rattle.std.specs.Prelude.{◌≡◌};
ghost use Rattle.prog_tree.specs.Syntax.{Fork, Loop};
ghost use Rattle.prog_tree.specs.Tree.{test_tree, listing_tree, stmt_tree, stmts_tree, block_tree};
ghost use Rattle.prog_text.specs.Cursor.{Reads};
ghost use Rattle.prog_text.specs.Reading.{listing_at, body_at, block_at};
ghost use Rattle.prog_text.specs.OpenBlocks.{ReadsOn, Steps, unread_of, behind_end, behind_if};
ghost use Rattle.prog_text.specs.OpenBlocks.{behind_each};

use crate::lexing::token::Sign;
use crate::limits::MAX_BRACKETS;
use crate::reading::conditions::test;
use crate::reading::cursor::TokenCursor;
use crate::reading::keys::{Ranged, range};
use crate::reading::read_error::ReadError;
use crate::reading::statements::statement;
use prog_tree::{Block, Listing, Stmt, Test};
use smallvec::SmallVec;
use std::alloc::Global;
use std::default::MadeWith;
use std::mem;

/// A block of a branch or of an `each` that is open, and the statements in front of these.
#[derive(Drop)]
pub enum Open {
    First {
        test: Test,
        before: Vec<Stmt>,
    },
    Second {
        test: Test,
        first: Vec<Stmt>,
        before: Vec<Stmt>,
    },
    Turns {
        listing: Listing,
        before: Vec<Stmt>,
    },
}

// An unused place of the stack.
impl MadeWith<Global> for Open {
    fn made_with(alloc: Global) -> Open {
        Open::First {
            test: Test {
                any: Vec::new(alloc),
            },
            before: Vec::new(alloc),
        }
    }
}

// A branch with these blocks.
#[tactic(auto, using(prog_tree::proofs::TreeLemmas::fork_tree))]
fn branch(test: Test, first: Vec<Stmt>, second: Vec<Stmt>) -> Stmt
    ensures { stmt_tree result
        ≡ Fork (test_tree test) (stmts_tree first.items) (stmts_tree second.items) }
{
    Stmt::Branch {
        test,
        then: Block { stmts: first },
        otherwise: Block { stmts: second },
    }
}

// An `each` with this head and block.
#[tactic(auto, using(prog_tree::proofs::TreeLemmas::loop_tree))]
fn each(listing: Listing, body: Vec<Stmt>) -> Stmt
    ensures { stmt_tree result ≡ Loop (listing_tree listing) (stmts_tree body.items) }
{
    Stmt::Each {
        listing,
        body: Block { stmts: body },
    }
}

// Behind the word `each`: two names and a range.
#[tactic(auto, unfolding(crate::specs::Reading::listing_at))]
fn listing(cursor: &mut TokenCursor<'_>) -> Result<Listing, ReadError>
    ensures { Reads listing_tree listing_at result cursor.old cursor.new }
{
    let key = cursor.name()?;
    cursor.expect(Sign::Comma)?;
    let value = cursor.name()?;
    cursor.expect(Sign::In)?;
    let Ranged { table, range } = range(cursor)?;
    Ok(Listing {
        key,
        value,
        table,
        range,
    })
}

/// A block that is being read.
#[derive(Drop)]
pub struct Body {
    // The blocks that are open in it, the innermost last.
    stack: SmallVec<Open, MAX_BRACKETS>,
    // The statements of the innermost one so far.
    done: Vec<Stmt>,
}

impl Body {
    // Goes on behind the closing sign of a first block.
    #[tactic(auto, using(crate::proofs::BlockSteps::second_opens, crate::proofs::BlockSteps::first_ends))]
    fn end_first(
        &mut self,
        cursor: &mut TokenCursor<'_>,
        test: Test,
        before: Vec<Stmt>,
    ) -> Result<(), ReadError>
        ensures { ReadsOn (behind_end (Open.First test before) self.old cursor.old) result
            self.new cursor.old cursor.new }
    {
        let first = mem::replace(&mut self.done, Vec::new(cursor.alloc));
        if cursor.eat(Sign::Else) {
            cursor.expect(Sign::OpenBlock)?;
            self.stack.push(Open::Second {
                test,
                first,
                before,
            })?;
            return Ok(());
        }
        let second = mem::replace(&mut self.done, before);
        self.done.push(branch(test, first, second))?;
        Ok(())
    }

    // Goes on behind the closing sign of the innermost block.
    #[tactic(auto, using(crate::proofs::BlockSteps::second_ends, crate::proofs::BlockSteps::turns_end))]
    fn end(&mut self, cursor: &mut TokenCursor<'_>, last: Open) -> Result<(), ReadError>
        ensures { ReadsOn (behind_end last self.old cursor.old) result
            self.new cursor.old cursor.new }
    {
        match last {
            Open::First { test, before } => self.end_first(cursor, test, before),
            Open::Second {
                test,
                first,
                before,
            } => {
                let second = mem::replace(&mut self.done, before);
                self.done.push(branch(test, first, second))?;
                Ok(())
            }
            Open::Turns { listing, before } => {
                let inside = mem::replace(&mut self.done, before);
                self.done.push(each(listing, inside))?;
                Ok(())
            }
        }
    }

    // Goes on behind the word `if`, into the first block.
    #[tactic(auto, using(crate::proofs::BlockSteps::first_opens))]
    fn begin_branch(&mut self, cursor: &mut TokenCursor<'_>) -> Result<(), ReadError>
        ensures { ReadsOn (behind_if self.old cursor.old) result self.new cursor.old cursor.new }
    {
        let test = test(cursor)?;
        cursor.expect(Sign::OpenBlock)?;
        let before = mem::replace(&mut self.done, Vec::new(cursor.alloc));
        self.stack.push(Open::First { test, before })?;
        Ok(())
    }

    // Goes on behind the word `each`, into its block.
    #[tactic(auto, using(crate::proofs::BlockSteps::turns_open))]
    fn begin_each(&mut self, cursor: &mut TokenCursor<'_>) -> Result<(), ReadError>
        ensures { ReadsOn (behind_each self.old cursor.old) result self.new cursor.old cursor.new }
    {
        let listing = listing(cursor)?;
        cursor.expect(Sign::OpenBlock)?;
        let before = mem::replace(&mut self.done, Vec::new(cursor.alloc));
        self.stack.push(Open::Turns { listing, before })?;
        Ok(())
    }

    // Reads a statement, the beginning of a branch or of an `each`, or the end of a block, and
    // tells whether the outermost has ended.
    #[tactic(auto, using(crate::proofs::BlockSteps::next_ends, crate::proofs::BlockSteps::next_branches, crate::proofs::BlockSteps::next_repeats, crate::proofs::BlockSteps::next_goes_on, crate::proofs::BlockSteps::statement_further))]
    fn next(&mut self, cursor: &mut TokenCursor<'_>) -> Result<bool, ReadError>
        ensures { Steps (unread_of self.old cursor.old) result self.new cursor.old cursor.new }
    {
        if cursor.eat(Sign::CloseBlock) {
            let Some(last) = self.stack.pop() else {
                return Ok(true);
            };
            self.end(cursor, last)?;
            return Ok(false);
        }
        if cursor.eat(Sign::If) {
            self.begin_branch(cursor)?;
            return Ok(false);
        }
        if cursor.eat(Sign::Each) {
            self.begin_each(cursor)?;
            return Ok(false);
        }
        self.done.push(statement(cursor)?)?;
        Ok(false)
    }
}

/// A block with its two signs.
#[tactic(auto, using(crate::proofs::BlockSteps::block_begins))]
pub fn block(cursor: &mut TokenCursor<'_>) -> Result<Block, ReadError>
    ensures { Reads block_tree (block_at body_at) result cursor.old cursor.new }
{
    cursor.expect(Sign::OpenBlock)?;
    let mut body = Body {
        stack: SmallVec::new(cursor.alloc),
        done: Vec::new(cursor.alloc),
    };
    let mut ended = false;
    while !ended {
        ended = body.next(cursor)?;
    }
    let Body { stack: _, done } = body;
    Ok(Block { stmts: done })
}
