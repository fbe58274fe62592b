//! Instances of records run once more.

use history_book::{Book, HistoryRow};
use prog_check::ProgramSet;
use prog_tree::Rows;
use si_engine::{Engine, Event, Reply};
use std::alloc::{AllocError, Global};

// The begin of a row's instance.
fn begin_of(row: &HistoryRow) -> Result<Event, AllocError> {
    Ok(Event::Begin {
        program: row.program,
        args: row.args.copy()?,
    })
}

// The rows that records leave; nothing where one of them is wrong.
fn rows_behind(
    alloc: Global,
    set: &ProgramSet,
    opening: Rows,
    records: Vec<HistoryRow>,
) -> Result<Option<Rows>, AllocError> {
    match Book::audit(alloc, set, opening, records) {
        Ok(book) => {
            let rows = book.table()?;
            Ok(Some(rows))
        }
        Err(_) => Ok(None),
    }
}

// Steps an instance of an engine to its end, and tells how it ends.
fn run_to_end(engine: &mut Engine<'_>, instance: usize) -> Result<Option<Reply>, AllocError> {
    // More turns than a run has steps: each gives a deed, which the run keeps.
    for _turn in 0..usize::MAX {
        match engine.apply(&Event::Step(instance))? {
            Reply::Did(_) => {}
            reply => return Ok(Some(reply)),
        }
    }
    Ok(None)
}

/// How the instance of a record ends on the rows that the records which it saw leave; nothing where
/// it can't be run.
pub fn ending(
    alloc: Global,
    set: &ProgramSet,
    opening: Rows,
    seen: Vec<HistoryRow>,
    row: &HistoryRow,
) -> Result<Option<Reply>, AllocError> {
    let Some(rows) = rows_behind(alloc, set, opening, seen)? else {
        return Ok(None);
    };
    let mut engine = Engine::open(alloc, set, rows)?;
    let begin = begin_of(row)?;
    engine.apply(&begin)?;
    run_to_end(&mut engine, 0)
}
