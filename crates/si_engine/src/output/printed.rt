//! The lines of replies and rows, and the last line, written where they go.
#![tactic(auto, using(crate::proofs::WritingLaws::writing_steps))]

ghost use Rattle.std.specs.Fmt.{signed_decimal};
ghost use Rattle.std.specs.Prelude.{◌≡◌, ◌++◌, OnOk, OnErr, take, codes, string_bytes};
ghost use Rattle.std.specs.Str.{IsCharBoundary};
ghost use Rattle.si_engine.specs.LastLine.{last_line, spaced_numbers};
ghost use Rattle.si_engine.specs.Printed.{deed_text, cause_text, reply_text, subject, reply_line};
ghost use Rattle.si_engine.specs.Printed.{row_text_in, printed_row};
ghost use Rattle.si_engine.specs.Writing.{AddsOrStays, AddsBytes};

use crate::event::{Event, Reply};
use crate::output::finding::Serializability;
use crate::output::pieces::{
    push_behind, push_found, push_mark, push_number, push_numbers, push_with_cell,
    push_with_number, push_word, table_head,
};
use prog_tree::{Arity, Cause, Cell, Deed, TableDecl};
use std::alloc::AllocError;

fn push_deed(text: &mut String, tables: &[TableDecl], deed: &Deed) -> Result<(), AllocError>
    ensures { AddsBytes text.old text.new result (deed_text tables.now deed.now) }
{
    match deed {
        Deed::Read(cell, value) => {
            push_with_cell(text, "read ", tables, cell)?;
            push_behind(text, *value)
        }
        Deed::Counted(region, count) => push_found(text, "count ", tables, region, *count),
        Deed::Summed(region, sum) => push_found(text, "sum ", tables, region, *sum),
        Deed::Listed(region, rows) => push_found(text, "list ", tables, region, *rows),
        Deed::Put(cell, value) => {
            push_with_cell(text, "put ", tables, cell)?;
            push_behind(text, Some(*value))
        }
        Deed::Removed(cell) => push_with_cell(text, "removed ", tables, cell),
        Deed::Kept(cell) => push_with_cell(text, "kept ", tables, cell),
    }
}

fn push_cause(text: &mut String, tables: &[TableDecl], cause: &Cause) -> Result<(), AllocError>
    ensures { AddsBytes text.old text.new result (cause_text tables.now cause.now) }
{
    match cause {
        Cause::Asked => push_word(text, "asked"),
        Cause::Missing(cell) => push_with_cell(text, "missing ", tables, cell),
        Cause::Present(cell) => push_with_cell(text, "present ", tables, cell),
        Cause::Overflow => push_word(text, "overflow"),
    }
}

fn push_reply(text: &mut String, tables: &[TableDecl], reply: &Reply) -> Result<(), AllocError>
    ensures { AddsBytes text.old text.new result (reply_text tables.now reply.now) }
{
    match reply {
        Reply::Begun { instance, start } => {
            push_number(text, *instance)?;
            push_with_number(text, " begun at ", *start)
        }
        Reply::NoSuchProgram => push_word(text, "refused no such program"),
        Reply::WrongArguments => push_word(text, "refused wrong arguments"),
        Reply::TooOld { floor } => push_with_number(text, "refused too old ", *floor),
        Reply::TooNew { commits } => push_with_number(text, "refused too new ", *commits),
        Reply::Full => push_word(text, "refused full"),
        Reply::Did(deed) => push_deed(text, tables, deed),
        Reply::Ready(replies) => {
            push_word(text, "ready")?;
            push_numbers(text, replies.as_slice())
        }
        Reply::Aborted(cause) => {
            push_word(text, "aborted ")?;
            push_cause(text, tables, cause)
        }
        Reply::Committed(number) => push_with_number(text, "committed ", *number),
        Reply::Clashed(clash) => {
            push_with_cell(text, "clashed on ", tables, &clash.cell)?;
            push_with_number(text, " with ", clash.number)
        }
        Reply::Withdrawn => push_word(text, "withdrawn"),
        Reply::Vacuumed(count) => push_with_number(text, "vacuumed ", *count),
        Reply::NoSuchInstance => push_word(text, "no such instance"),
        Reply::Ended => push_word(text, "ended"),
        Reply::NotReady => push_word(text, "not ready"),
    }
}

// Adds the instance of which a step, a commit or an abort speaks.
fn push_subject(text: &mut String, event: &Event) -> Result<(), AllocError>
    ensures { AddsBytes text.old text.new result (subject event.now) }
{
    match event {
        Event::Begin { .. } | Event::BeginAt { .. } | Event::Vacuum => Ok(()),
        Event::Step(instance) | Event::Commit(instance) | Event::Abort(instance) => {
            push_number(text, *instance)?;
            push_mark(text, ' ')
        }
    }
}

fn write_reply_line(
    text: &mut String,
    tables: &[TableDecl],
    event: &Event,
    reply: &Reply,
) -> Result<(), AllocError>
    ensures { AddsBytes text.old text.new result (reply_line tables.now event.now reply.now) }
{
    push_subject(text, event)?;
    push_reply(text, tables, reply)?;
    push_mark(text, '\n')
}

// Hands on what a write ended with, and cuts off what it left behind where it stopped half way.
fn or_cut(
    text: &mut String,
    start: usize,
    written: Result<(), AllocError>,
) -> Result<(), AllocError>
    requires { IsCharBoundary (string_bytes text.old) start }
    ensures same { result ≡ written }
    ensures ok { OnOk result (string_bytes text.new ≡ string_bytes text.old) }
    ensures err { OnErr result (string_bytes text.new ≡ take start (string_bytes text.old)) }
{
    if written.is_err() {
        text.truncate(start);
    }
    written
}

/// Adds the line of an event and its reply; a text without memory for the line stays as it is.
pub fn push_reply_line(
    text: &mut String,
    tables: &[TableDecl],
    event: &Event,
    reply: &Reply,
) -> Result<(), AllocError>
    ensures { AddsOrStays text.old text.new result (reply_line tables.now event.now reply.now) }
{
    let start = text.as_bytes().len();
    let written = write_reply_line(text, tables, event, reply);
    or_cut(text, start, written)
}

// Adds the name of a row's table, and its first number.
fn push_row_head(text: &mut String, name: &str, first: i64) -> Result<(), AllocError>
    ensures { AddsBytes text.old text.new result (codes "row "
        ++ (name.now ++ (codes " " ++ signed_decimal first))) }
{
    push_word(text, "row ")?;
    push_word(text, name)?;
    push_with_number(text, " ", first)
}

// Adds the value of a row, and the end of its line.
fn push_row_end(text: &mut String, value: i64) -> Result<(), AllocError>
    ensures { AddsBytes text.old text.new result
        (codes " = " ++ (signed_decimal value ++ codes "\n")) }
{
    push_with_number(text, " = ", value)?;
    push_mark(text, '\n')
}

// Adds the second number of a row, its value, and the end of its line.
fn push_second_end(text: &mut String, second: i64, value: i64) -> Result<(), AllocError>
    ensures { AddsBytes text.old text.new result (codes " "
        ++ (signed_decimal second ++ (codes " = " ++ (signed_decimal value ++ codes "\n")))) }
{
    push_with_number(text, " ", second)?;
    push_row_end(text, value)
}

fn write_row_in(
    text: &mut String,
    name: &str,
    arity: Arity,
    cell: &Cell,
    value: i64,
) -> Result<(), AllocError>
    ensures { AddsBytes text.old text.new result (row_text_in name.now arity cell.now value) }
{
    let Cell { first, second, .. } = *cell;
    push_row_head(text, name, first)?;
    match arity {
        Arity::One => push_row_end(text, value),
        Arity::Two => push_second_end(text, second, value),
    }
}

fn write_row_line(
    text: &mut String,
    tables: &[TableDecl],
    cell: &Cell,
    value: i64,
) -> Result<(), AllocError>
    ensures { AddsBytes text.old text.new result (printed_row tables.now cell.now value) }
{
    let (name, arity) = table_head(tables, cell.table);
    write_row_in(text, name, arity, cell, value)
}

/// Adds the line of a row; a text without memory for the line stays as it is.
pub fn push_row_line(
    text: &mut String,
    tables: &[TableDecl],
    row: &(Cell, i64),
) -> Result<(), AllocError>
    ensures { AddsOrStays text.old text.new result (printed_row tables.now row.now.0 row.now.1) }
{
    let (cell, value) = row;
    let start = text.as_bytes().len();
    let written = write_row_line(text, tables, cell, *value);
    or_cut(text, start, written)
}

// Adds a line of a word and numbers.
fn write_numbers_line(text: &mut String, word: &str, numbers: &[usize]) -> Result<(), AllocError>
    ensures { AddsBytes text.old text.new result
        (word.now ++ (spaced_numbers numbers.now ++ codes "\n")) }
{
    push_word(text, word)?;
    push_numbers(text, numbers)?;
    push_mark(text, '\n')
}

fn write_last_line(
    text: &mut String,
    finding: Serializability,
    numbers: &[usize],
) -> Result<(), AllocError>
    ensures { AddsBytes text.old text.new result (last_line finding numbers.now) }
{
    match finding {
        Serializability::Order => write_numbers_line(text, "order", numbers),
        Serializability::Cycle => write_numbers_line(text, "cycle", numbers),
    }
}

/// Adds the last line of a run or an audit; a text without memory for the line stays as it is.
pub fn push_last_line(
    text: &mut String,
    finding: Serializability,
    numbers: &[usize],
) -> Result<(), AllocError>
    ensures { AddsOrStays text.old text.new result (last_line finding numbers.now) }
{
    let start = text.as_bytes().len();
    let written = write_last_line(text, finding, numbers);
    or_cut(text, start, written)
}
