//! Words that several kinds of faults have.
ghost use Rattle.std.specs.Prelude.{◌≡◌, IfOk, string_bytes};
ghost use Rattle.prog_tree.specs.Tree.{draft_tree};
ghost use Rattle.run_words.specs.BeginReasons.{counted, plural_ending};
ghost use Rattle.run_words.specs.JobSentences.{cause_text};

use fault_words::cell_text;
use prog_check::ProgramSet;
use prog_tree::Cause;
use std::alloc::{AllocError, Global};

/// Why an instance aborts.
pub fn cause_text(alloc: Global, set: &ProgramSet, cause: Cause) -> Result<String, AllocError>
    ensures { IfOk result (λ text. string_bytes text ≡ cause_text (draft_tree set.now) cause) }
{
    match cause {
        Cause::Asked => format!(in alloc; "by an `abort;`"),
        Cause::Missing(cell) => {
            let cell = cell_text(alloc, set, cell)?;
            format!(in alloc; "since {cell} is absent there")
        }
        Cause::Present(cell) => {
            let cell = cell_text(alloc, set, cell)?;
            format!(in alloc; "since {cell} is there already")
        }
        Cause::Overflow => format!(in alloc; "since a result is outside the numbers there are"),
    }
}

fn plural_ending(count: usize) -> &'static str
    ensures { result.now ≡ plural_ending count }
{
    if count == 1 { "" } else { "s" }
}

/// So many of something.
pub fn counted(alloc: Global, count: usize, what: &str) -> Result<String, AllocError>
    ensures { IfOk result (λ text. string_bytes text ≡ counted count what.now) }
{
    let ending = plural_ending(count);
    format!(in alloc; "{count} {what}{ending}")
}
