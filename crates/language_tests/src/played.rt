//! Examples of runs: calls, and what they come to as text.

use crate::told::is_told;
use example_sets::set_of;
use prog_check::ProgramSet;
use prog_run::{AnswerFault, Look, Next, Run};
use prog_tree::{Cell, Region, RowPieces, Sequence};
use std::alloc::{AllocError, Global};
use std::process::Abort;
use std::test::Fail;

/// A run of a set's program, with the rows that it is answered, and its calls: each line a call and
/// what it gives.
pub struct Example {
    pub text: &'static str,
    pub program: usize,
    pub args: &'static [i64],
    pub rows: &'static [(Cell, i64)],
    pub calls: &'static str,
}

/// Cells of the first table, each named by both of its columns.
pub const CELL_1_0: Cell = Cell {
    table: 0,
    first: 1,
    second: 0,
};

pub const CELL_2_0: Cell = Cell {
    table: 0,
    first: 2,
    second: 0,
};

pub const CELL_7_1: Cell = Cell {
    table: 0,
    first: 7,
    second: 1,
};

pub const CELL_7_3: Cell = Cell {
    table: 0,
    first: 7,
    second: 3,
};

/// The cells from 1 to 3 of the first table, which has one key column.
const ONE_TO_THREE: Region = Region {
    table: 0,
    first_low: 1,
    first_high: 3,
    second_low: 0,
    second_high: 0,
};

/// The cells from 1 to 2.
const ONE_TO_TWO: Region = Region {
    table: 0,
    first_low: 1,
    first_high: 2,
    second_low: 0,
    second_high: 0,
};

/// The cell that a look found, or the run's own cells that it left out and how many rows it found
/// in others.
fn shown_look(alloc: Global, look: &Look) -> Result<String, AllocError> {
    match look {
        Look::One(cell, held) => format!(in alloc; "{cell:?} {held:?}"),
        Look::Range { own, rows, .. } => {
            let (own, others) = (own.as_slice(), rows.len());
            format!(in alloc; "{own:?} and {others} others")
        }
    }
}

fn shown_last_look(alloc: Global, run: &Run<'_>) -> Result<String, AllocError> {
    match run.looks().last() {
        Some(look) => shown_look(alloc, look),
        None => Ok(String::new(alloc)),
    }
}

/// The number of tables and of parameters, and the arguments.
pub fn shown_begin(alloc: Global, run: &Run<'_>) -> Result<String, AllocError> {
    let (tables, params) = (run.tables().len(), run.program().params.len());
    format!(in alloc; "{tables} {params} {:?}", run.args())
}

/// How many statements are done and how many looks were made, the replies and the end.
fn shown_state(alloc: Global, run: &Run<'_>) -> Result<String, AllocError> {
    let (done, looks, end) = (run.done(), run.looks().len(), run.end());
    format!(in alloc; "{done} {looks} {:?} {end:?}", run.replies())
}

// The rows of pieces, one after another.
fn shown_listed(alloc: Global, rows: &RowPieces) -> Result<String, AllocError> {
    let mut listed = Vec::new(alloc);
    for piece in rows.pieces() {
        listed.extend_from_slice(piece.rows())?;
    }
    format!(in alloc; "Some({listed:?})")
}

// The same where there are some to tell.
fn shown_rows(alloc: Global, found: Option<&RowPieces>) -> Result<String, AllocError> {
    match found {
        Some(rows) => shown_listed(alloc, rows),
        None => format!(in alloc; "None"),
    }
}

/// The rows that the last look found, where it was at the cells from 1 to 3, and where from 1 to 2.
fn shown_again(alloc: Global, run: &Run<'_>) -> Result<String, AllocError> {
    let same = shown_rows(alloc, run.rows_again(&ONE_TO_THREE))?;
    let other = shown_rows(alloc, run.rows_again(&ONE_TO_TWO))?;
    format!(in alloc; "{same} {other}")
}

/// The changed cells' first columns with what they were changed to.
fn shown_changes(alloc: Global, run: &Run<'_>) -> Result<String, AllocError> {
    let mut text = String::new(alloc);
    for (cell, value) in run.changes().iter() {
        write!(text, "{} {value:?} ", cell.first)?;
    }
    Ok(text)
}

fn read(alloc: Global, run: &Run<'_>, word: &str) -> Result<String, AllocError> {
    match word {
        "begin" => shown_begin(alloc, run),
        "look" => shown_last_look(alloc, run),
        "again" => shown_again(alloc, run),
        "changes" => shown_changes(alloc, run),
        _ => shown_state(alloc, run),
    }
}

fn shown_answer(alloc: Global, answer: Result<Next, AnswerFault>) -> Result<String, AllocError> {
    match answer {
        Ok(next) => format!(in alloc; "{next:?}"),
        Err(fault) => format!(in alloc; "{fault}"),
    }
}

/// The answer that a word gives: these rows, that a cell holds nothing, or the number that it
/// holds.
fn answered(
    alloc: Global,
    run: &mut Run<'_>,
    rows: &[(Cell, i64)],
    word: &str,
) -> Result<Option<Result<Next, AnswerFault>>, AllocError> {
    match word {
        "rows" => {
            let rows = Sequence::from_slice(alloc, rows)?;
            Ok(Some(run.answer_scan(rows)))
        }
        "none" => Ok(Some(run.answer_get(None))),
        _ => match word.parse::<i64>() {
            Ok(value) => Ok(Some(run.answer_get(Some(value)))),
            Err(_) => Ok(None),
        },
    }
}

fn advance(alloc: Global, run: &mut Run<'_>) -> Result<String, AllocError> {
    let next = run.advance()?;
    format!(in alloc; "{next:?}")
}

/// One call: `advance`, an answer, or a reader.
fn call(
    alloc: Global,
    run: &mut Run<'_>,
    rows: &[(Cell, i64)],
    word: &str,
) -> Result<String, AllocError> {
    if word == "advance" {
        return advance(alloc, run);
    }
    match answered(alloc, run, rows, word)? {
        Some(answer) => shown_answer(alloc, answer),
        None => read(alloc, run, word),
    }
}

/// Makes the calls of an example.
fn play_calls(
    rt: &impl Abort,
    alloc: Global,
    run: &mut Run<'_>,
    example: &Example,
) -> Result<(), AllocError> {
    for line in example.calls.lines() {
        let (word, want) = line.split_once(": ").expect(rt, "a call and its answer");
        let answer = call(alloc, run, example.rows, word)?;
        is_told(rt, word, answer.as_str(), want);
    }
    Ok(())
}

fn play_in(
    rt: &impl Abort,
    alloc: Global,
    set: &ProgramSet,
    example: &Example,
) -> Result<(), Fail> {
    let mut run = Run::new(alloc, set, example.program, example.args)?;
    let played = play_calls(rt, alloc, &mut run, example);
    drop(run);
    Ok(played?)
}

/// Makes the calls of an example's run.
pub fn play(rt: &impl Abort, alloc: Global, example: &Example) -> Result<(), Fail> {
    let set = set_of(alloc, example.text)?;
    let played = play_in(rt, alloc, &set, example);
    drop(set);
    played
}
