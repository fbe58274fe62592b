//! Words that several sentences have.
ghost use Rattle.std.specs.Prelude.{◌≡◌, IfOk, string_bytes};
ghost use Rattle.analysis_words.specs.SharedWords.{more_text, other_run};

use std::alloc::{AllocError, Global};

/// What stands before a node or a program that is named behind another, where it is the same.
pub fn other_run(first: usize, second: usize) -> &'static str
    ensures { result.now ≡ other_run first second }
{
    if first == second { "another " } else { "" }
}

/// How many are not named behind those that are.
pub fn more_text(alloc: Global, count: usize) -> Result<String, AllocError>
    ensures { IfOk result (λ text. string_bytes text ≡ more_text count) }
{
    if count == 0 {
        return Ok(String::new(alloc));
    }
    format!(in alloc; ", and {count} more")
}
