//! What a book ends with: its rows, and a serial order of its commits or a cycle of them.
ghost use Rattle.std.specs.Prelude.{◌≡◌, ◌++◌, List, ℕ, string_bytes, IfOk, OnOk, OnErr};
ghost use Rattle.prog_tree.specs.Tree.{draft_tree};
ghost use Rattle.history_book.specs.View.{history_of};
ghost use Rattle.si_engine.specs.LastLine.{IsLastLine};
ghost use Rattle.si_engine.specs.Runs.{row_lines, end_lines, AddsLines, AddsFirst, AddsEnd};

use crate::output::printed::{push_last_line, push_row_line};
use crate::witness::Witness;
use history_book::{Book, OrderFault};
use prog_tree::{Cell, Draft};
use std::alloc::AllocError;

/// What the last line says of the commits of a book.
#[derive(Clone, Copy, Debug, PartialEq, Eq)]
pub enum Serializability {
    /// They have a serial order.
    Order,
    /// Some of them form a cycle of dependencies.
    Cycle,
}

/// Adds the line of each row. Where memory runs out, some first lines were added.
pub fn push_rows(set: &Draft, rows: &[(Cell, i64)], out: &mut String) -> Result<(), AllocError>
    ensures ok { OnOk result (AddsLines (row_lines (draft_tree set.now) rows.now)
        (string_bytes out.old) (string_bytes out.new)) }
    ensures err { OnErr result (AddsFirst (row_lines (draft_tree set.now) rows.now)
        (string_bytes out.old) (string_bytes out.new)) }
{
    for row in rows {
        push_row_line(out, &set.tables, row)?;
    }
    Ok(())
}

// Adds the last line, or nothing. A witness is told a cycle.
fn push_order<W: Witness>(
    book: &Book<'_>,
    out: &mut String,
    witness: &mut W,
) -> Result<Serializability, AllocError>
    ensures ok { IfOk result (λ finding. (last : List ℕ)
        × IsLastLine (draft_tree book.now.set) book.now.opening (history_of book.now.rows)
        finding last
        × (string_bytes out.new ≡ string_bytes out.old ++ last)) }
    ensures err { OnErr result (string_bytes out.new ≡ string_bytes out.old) }
{
    match book.serial_order() {
        Ok(order) => {
            push_last_line(out, Serializability::Order, &order)?;
            Ok(Serializability::Order)
        }
        Err(OrderFault::Cycle(cycle)) => {
            push_last_line(out, Serializability::Cycle, &cycle)?;
            witness.cycle(book, &cycle);
            Ok(Serializability::Cycle)
        }
        Err(OrderFault::Memory) => Err(AllocError),
    }
}

/// Adds the line of each row of a book's table, and then the last line, before a witness, which is
/// told a cycle. Of several cycles any may be told. Where memory runs out, some first lines of rows
/// were added.
pub fn push_findings_before<W: Witness>(
    book: &Book<'_>,
    out: &mut String,
    witness: &mut W,
) -> Result<Serializability, AllocError>
    ensures ok { IfOk result (λ finding. AddsEnd (draft_tree book.now.set) book.now.opening
        (history_of book.now.rows) finding (string_bytes out.old) (string_bytes out.new)) }
    ensures err { OnErr result (AddsFirst (end_lines (draft_tree book.now.set) book.now.opening
        (history_of book.now.rows)) (string_bytes out.old) (string_bytes out.new)) }
{
    let table = book.table_rows()?;
    push_rows(book.set().draft(), table.as_slice(), out)?;
    push_order(book, out, witness)
}
