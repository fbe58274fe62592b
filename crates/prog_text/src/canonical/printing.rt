//! The canonical text of a draft.

ghost use Rattle.std.specs.Prelude.{◌≡◌, ℕ, ◌≤◌, List, length, IfOk};
ghost use Rattle.prog_tree.specs.Tree.{draft_tree};
ghost use Rattle.prog_text.specs.Answer.{Accepts};
ghost use Rattle.prog_text.specs.Limits.{text_limit};
ghost use Rattle.prog_text.specs.Canonical.{canonical};

use crate::canonical::printer::Printer;
use prog_tree::Draft;
use std::alloc::{AllocError, Global};

/// The canonical text of a draft, however deep its blocks are. Memory is the only reason for an
/// error: a text that is to grow, this one or the white space before a line, and gets no room.
pub fn print(alloc: Global, draft: &Draft) -> Result<Vec<u8>, AllocError>
    ensures canonical { IfOk result (λ text. text.items ≡ canonical (draft_tree draft.now)) }

    // What is printed of a draft that was read is read as this draft again, if it is no longer than
    // a text may be.
    ensures read_again { (bytes : List ℕ) → Accepts bytes (draft_tree draft.now)
        → IfOk result (λ text. length text.items ≤ text_limit
        → Accepts text.items (draft_tree draft.now)) }
{
    let mut printer = Printer::new(alloc);
    printer.tables(draft.tables.as_slice())?;
    printer.programs(draft.programs.as_slice())?;
    Ok(printer.into_bytes())
}
