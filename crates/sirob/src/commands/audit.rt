//! The command `audit`: from the bytes of records to the rows that they leave.
ghost use Rattle.std.specs.Prelude.{◌≡◌, false, [], Ok, string_bytes, IfOk, IfErr};
ghost use Rattle.prog_tree.specs.Tree.{draft_tree};
ghost use Rattle.history_book.specs.TrueBook.{IsTrueBook};
ghost use Rattle.si_engine.specs.Records.{records_of};
ghost use Rattle.sirob.specs.FaultLines.{is_memory};
ghost use Rattle.sirob.specs.InputFaults.{IsFaultOfPart};
ghost use Rattle.sirob.specs.Stops.{IsPartDone, WritesWithEnd};
ghost use Rattle.sirob.specs.declared.command_line.Mode.TheVariants as mode;

use crate::command_fault::CommandFault;
use crate::lines::write_lines;
use crate::sentences::kept::Kept;
use crate::sentences::runs::Keeper;
use crate::status::Status;
use history_book::Book;
use prog_check::ProgramSet;
use si_engine::{ItemList, Records, Sink, push_findings_before, read_lines};
use std::alloc::Global;
use std::mem;

// The records that the bytes of a part are.
fn records_in(alloc: Global, set: &ProgramSet, part: &[u8]) -> Result<Records, CommandFault>
    ensures ok { IfOk result (λ records. records_of (draft_tree set.now) part.now ≡ Ok records) }
    ensures err { IfErr result (λ fault. is_memory fault ≡ false
        → IsFaultOfPart mode.Audit (draft_tree set.now) part.now fault) }
{
    Ok(read_lines::<Records>(alloc, set, part)?)
}

// A book is true, as its type says.
fn read_book(book: &Book<'_>)
    ensures { IsTrueBook book.now }
{
    book.commits();
}

// Audits the records that the bytes of a part are, and adds the rows that are left and the last
// line.
fn push_audit(
    alloc: Global,
    set: &ProgramSet,
    part: &[u8],
    out: &mut String,
    kept: &mut Kept,
) -> Result<Status, CommandFault>
    requires { string_bytes out.old ≡ [] }
    ensures { IsPartDone mode.Audit (draft_tree set.now) part.now (string_bytes out.new) result }
{
    let ItemList {
        rows,
        items: records,
    } = records_in(alloc, set, part)?;
    let book = Book::audit(alloc, set, rows, records.into_vec())?;
    read_book(&book);
    let mut keeper = Keeper { alloc, part, kept };
    let finding = push_findings_before(&book, out, &mut keeper)?;
    // The process ends behind the audit: the system takes the book's memory back as a whole.
    mem::forget(book);
    Ok(Status::of(finding))
}

/// Audits the records that the bytes of a part are. Each row that is left writes a line, and last
/// the order or the cycle; where memory runs out, some first lines were written. A cycle is kept in
/// words.
pub fn audit_part<K: Sink>(
    alloc: Global,
    set: &ProgramSet,
    part: &[u8],
    sink: &mut K,
    kept: &mut Kept,
) -> Result<Status, CommandFault>
    ensures { WritesWithEnd (IsPartDone mode.Audit (draft_tree set.now) part.now)
        (K.has_failed sink.new) (K.taken sink.old) (K.taken sink.new) result }
{
    let mut lines = String::new(alloc);
    let ended = push_audit(alloc, set, part, &mut lines, kept);
    write_lines(sink, lines.as_bytes(), ended)
}
