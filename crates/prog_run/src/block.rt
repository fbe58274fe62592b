//! Open blocks, and the turns that are left of an `each`.
ghost use Rattle.std.specs.Prelude.{◌≡◌, ◌++◌, IfOk, OnOk, option_map};
ghost use Rattle.prog_tree.specs.Evaluation.{last_column, turns_of};
ghost use Rattle.prog_tree.specs.Tree.{range_tree, stmts_tree};
ghost use Rattle.prog_run.specs.Todo.{next_turn, in_turn};
ghost use Rattle.prog_run.specs.Cursor.{open_tree, turn_tree};
ghost use Rattle.prog_run.specs.Step.{rest_after};

use prog_tree::{Block, Cell, Name, Range, RowPieces, Stmt};
use std::alloc::{AllocError, Global};
use std::collections::VecDeque;

/// The names of an `each`: for the last key column of a row, and for its value.
#[derive(Clone, Copy, Debug)]
pub struct TurnNames<'a> {
    pub key: &'a Name,
    pub value: &'a Name,
}

/// What is left of an `each` whose rows are listed: the last key column and the value of each row
/// that had no turn yet.
#[derive(Debug, Drop)]
pub struct Turns<'a> {
    pub names: TurnNames<'a>,
    pub body: &'a Block,
    pub left: VecDeque<(i64, i64)>,
}

/// A turn of an `each`.
#[derive(Clone, Copy, Debug)]
pub struct Turn<'a> {
    pub names: TurnNames<'a>,
    pub key: i64,
    pub value: i64,
}

/// What is left of a block, how many names were bound before it, and the turns behind it if it is
/// the body of an `each`.
#[derive(Debug, Drop)]
pub struct OpenBlock<'a> {
    pub rest: &'a [Stmt],
    pub scope: usize,
    pub turns: Option<Turns<'a>>,
}

impl<'a> OpenBlock<'a> {
    /// The statements behind the first.
    pub fn behind(&self) -> &'a [Stmt]
        ensures { stmts_tree result.now ≡ rest_after (open_tree self.now).rest }
    {
        match self.rest.split_first() {
            Some((_, rest)) => rest,
            None => self.rest,
        }
    }

    /// The next turn, if there is one.
    pub fn next_turn(&self) -> Option<Turn<'a>>
        ensures { option_map turn_tree result ≡ next_turn (open_tree self.now) }
    {
        let turns = self.turns.as_ref()?;
        let row = turns.left.front()?;
        Some(Turn {
            names: turns.names,
            key: row.0,
            value: row.1,
        })
    }

    /// Begins the next turn, before which so many names are bound.
    pub fn begin_turn(&mut self, names: usize)
        ensures { open_tree self.new ≡ in_turn names (open_tree self.old) }
    {
        let Some(mut turns) = self.turns.take() else {
            return;
        };
        turns.left.pop_front();
        self.rest = turns.body.stmts.as_slice();
        self.scope = names;
        self.turns = Some(turns);
    }
}

fn column(range: &Range, cell: &Cell) -> i64
    ensures { result ≡ last_column (range_tree range.now) cell.now }
{
    match range {
        Range::One { .. } => cell.first,
        Range::Two { .. } => cell.second,
    }
}

// Adds a turn for each row behind others.
fn push_turns(
    turns: &mut VecDeque<(i64, i64)>,
    range: &Range,
    rows: &[(Cell, i64)],
) -> Result<(), AllocError>
    ensures { OnOk result
        (turns.new.items ≡ turns.old.items ++ turns_of (range_tree range.now) rows.now) }
{
    for (cell, value) in rows {
        turns.push_back((column(range, cell), *value))?;
    }
    Ok(())
}

/// A turn for each row.
pub fn turns_over(
    alloc: Global,
    range: &Range,
    rows: &RowPieces,
) -> Result<VecDeque<(i64, i64)>, AllocError>
    ensures { IfOk result (λ turns. turns.items ≡ turns_of (range_tree range.now) rows.now) }
{
    let mut turns = VecDeque::with_capacity(alloc, rows.len())?;
    for piece in rows.pieces() {
        push_turns(&mut turns, range, piece.rows())?;
    }
    Ok(turns)
}
