//! What lists have beside their rows.
ghost use Rattle.std.specs.Prelude.{◌≡◌, ℕ, List, Result};
ghost use Rattle.prog_tree.specs.Syntax.{DraftTree};
ghost use Rattle.prog_tree.specs.Tree.{draft_tree};
ghost use Rattle.si_engine.specs.LineFaults.{Reads};

use crate::input::line_fault::LineFault;
use crate::input::line_words::LineWord;
use prog_check::ProgramSet;
use std::alloc::Global;

/// What a list has beside its rows, each in a line of its own.
pub trait ListItem: Drop {
    ghost use Rattle.si_engine.specs.declared.input.line_fault.LineFault.{LineFault};

    /// The word that begins its line.
    ghost keyword: { List ℕ };

    /// What the words behind it are, in a line of a number, or the line's fault.
    ghost item_of: { DraftTree → ℕ → List (List ℕ) → Result Self LineFault };

    fn item_word() -> &'static [u8]
        ensures { result.now ≡ keyword };

    fn read(
        alloc: Global,
        set: &ProgramSet,
        line: usize,
        words: &[LineWord<'_>],
    ) -> Result<Self, LineFault>
        ensures { Reads (λ item. item) result (item_of (draft_tree set.now) line words.now) };
}
