//! Lines of a list.
ghost use Rattle.std.specs.Prelude.{◌≡◌};
ghost use Rattle.prog_tree.specs.Tree.{draft_tree};
ghost use Rattle.si_engine.specs.ListLines.{list_line_of, list_line};
ghost use Rattle.si_engine.specs.LineFaults.{Reads};

use crate::input::line_fault::LineFault;
use crate::input::line_words::{LineWord, line_words};
use crate::input::lines::is_skipped;
use crate::input::list_item::ListItem;
use crate::input::row_line::{RowLine, row_line};
use prog_check::ProgramSet;
use std::alloc::Global;

/// What a line says.
#[derive(Drop)]
pub enum ListLine<T> {
    /// An empty line or a comment.
    Skip,
    /// An opening row.
    Row(RowLine),
    /// A committed instance, or a job.
    Item(T),
}

#[tactic(auto, unfolding(crate::specs::ListLines::list_line_of))]
fn words_line<T: ListItem>(
    alloc: Global,
    set: &ProgramSet,
    line: usize,
    words: &[LineWord<'_>],
) -> Result<ListLine<T>, LineFault>
    ensures { Reads (λ said. said) result
        (list_line_of T.keyword T.item_of (draft_tree set.now) line words.now) }
{
    let [first, rest @ ..] = words else {
        return Err(LineFault::BadLine { line });
    };
    if first.is(b"row") {
        let row = row_line(set, line, rest)?;
        Ok(ListLine::Row(row))
    } else if first.is(T::item_word()) {
        let item = T::read(alloc, set, line, rest)?;
        Ok(ListLine::Item(item))
    } else {
        Err(LineFault::BadLine { line })
    }
}

/// What the line of this number says, or its fault.
#[tactic(auto, unfolding(crate::specs::ListLines::list_line))]
pub fn list_line<T: ListItem>(
    alloc: Global,
    set: &ProgramSet,
    line: usize,
    bytes: &[u8],
) -> Result<ListLine<T>, LineFault>
    ensures { Reads (λ said. said) result
        (list_line T.keyword T.item_of (draft_tree set.now) line bytes.now) }
{
    if is_skipped(bytes) {
        return Ok(ListLine::Skip);
    }
    let words = line_words(alloc, bytes)?;
    words_line(alloc, set, line, words.as_slice())
}
