//! Row lines, which scripts, records and jobs share.
ghost use Rattle.std.specs.Prelude.{◌≡◌, ◌+◌, None, Some, OnOk, IfErr};
ghost use Rattle.prog_tree.specs.Table.{row_at, with_row};
ghost use Rattle.prog_tree.specs.Tree.{draft_tree};
ghost use Rattle.si_engine.specs.LineFaults.{IsFault};
ghost use Rattle.si_engine.specs.RowLines.{is_equals_sign, one_key, two_keys, row_words, arity_of};
ghost use Rattle.si_engine.specs.RowLines.{cell_of_keys, row_line_of, row_fault};

use crate::input::line_fault::LineFault;
use crate::input::line_words::LineWord;
use crate::input::names::table_number;
use crate::input::number::number;
use prog_check::ProgramSet;
use prog_tree::{Arity, Cell, Rows};

/// An opening row.
#[derive(Clone, Copy, Debug, PartialEq, Eq)]
pub struct RowLine {
    pub cell: Cell,
    pub value: i64,
}

// The keys of a row.
#[derive(Clone, Copy)]
pub enum Keys {
    One(i64),
    Two(i64, i64),
}

// The words of a row, with their numbers.
#[derive(Drop)]
pub struct RowWords<'a> {
    table: LineWord<'a>,
    keys: Keys,
    value: i64,
}

// How many key columns the table of a number has.
fn arity(set: &ProgramSet, table: usize) -> Option<Arity>
    ensures { result ≡ arity_of (draft_tree set.now) table }
{
    Some(set.draft().tables.get(table)?.arity)
}

fn is_equals_sign(word: &LineWord<'_>) -> bool
    ensures { result ≡ is_equals_sign word.now }
{
    word.is(b"=")
}

fn one_key(key: &LineWord<'_>) -> Option<Keys>
    ensures { result ≡ one_key key.now }
{
    Some(Keys::One(number(key.as_bytes())?))
}

fn two_keys(first: &LineWord<'_>, second: &LineWord<'_>) -> Option<Keys>
    ensures { result ≡ two_keys first.now second.now }
{
    let first = number(first.as_bytes())?;
    let second = number(second.as_bytes())?;
    Some(Keys::Two(first, second))
}

// The row, if the words are TABLE K = V or TABLE K1 K2 = V.
fn row_words<'a>(words: &[LineWord<'a>]) -> Option<RowWords<'a>>
    ensures { result ≡ row_words words.now }
{
    let (table, keys, sign, value) = match words {
        [table, key, sign, value] => (table, one_key(key)?, sign, value),
        [table, first, second, sign, value] => (table, two_keys(first, second)?, sign, value),
        _ => return None,
    };
    if !is_equals_sign(sign) {
        return None;
    }
    Some(RowWords {
        table: LineWord::new(table.as_bytes()),
        keys,
        value: number(value.as_bytes())?,
    })
}

// The cell at keys, if they are as many as the table's key columns.
fn cell_of_keys(arity: Arity, table: usize, keys: Keys) -> Option<Cell>
    ensures { result ≡ cell_of_keys arity table keys }
{
    match (arity, keys) {
        (Arity::One, Keys::One(first)) => Some(Cell {
            table,
            first,
            second: 0,
        }),
        (Arity::Two, Keys::Two(first, second)) => Some(Cell {
            table,
            first,
            second,
        }),
        _ => None,
    }
}

/// The row that the words behind `row` are, or the line's fault.
#[tactic(auto, unfolding(crate::specs::RowLines::row_line_of))]
pub fn row_line(set: &ProgramSet, line: usize, words: &[LineWord<'_>]) -> Result<RowLine, LineFault>
    ensures { result ≡ row_line_of (draft_tree set.now) line words.now }
{
    let RowWords { table, keys, value } = row_words(words).ok_or(LineFault::BadLine { line })?;
    let table = table_number(set, table.as_bytes()).ok_or(LineFault::UnknownName { line })?;
    let arity = arity(set, table).ok_or(LineFault::UnknownName { line })?;
    let cell = cell_of_keys(arity, table, keys).ok_or(LineFault::WrongKeys { line })?;
    Ok(RowLine { cell, value })
}

/// Adds a row to those so far; `late` says that a line of another kind stands before it. Behind an
/// error the rows are of no use.
pub fn add_row(rows: &mut Rows, line: usize, late: bool, row: RowLine) -> Result<(), LineFault>
    ensures placed { OnOk result (row_fault line late (row_at rows.old row.cell) ≡ None) }
    ensures rows { OnOk result (rows.new ≡ with_row rows.old row.cell row.value) }
    ensures fault { IfErr result
        (λ fault. IsFault fault (row_fault line late (row_at rows.old row.cell))) }
{
    if late {
        return Err(LineFault::LateRow { line });
    }
    match rows.insert(row.cell, row.value)? {
        None => Ok(()),
        Some(_) => Err(LineFault::RepeatedRow { line }),
    }
}
