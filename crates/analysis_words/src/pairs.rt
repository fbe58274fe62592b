//! Sentences of the two programs of a pair.
ghost use Rattle.std.specs.Prelude.{◌≡◌, IfOk, string_bytes};
ghost use Rattle.prog_tree.specs.Tree.{draft_tree};
ghost use Rattle.analysis_words.specs.Repairs.{pair_sentence, quoted_name};

use crate::shared_words::other_run;
use fault_words::program_name;
use prog_check::ProgramSet;
use si_repair::Pair;
use std::alloc::{AllocError, Global};

/// The name of a program between two backquotes.
pub fn quoted_name(alloc: Global, set: &ProgramSet, program: usize) -> Result<String, AllocError>
    ensures { IfOk result (λ name. string_bytes name ≡ quoted_name (draft_tree set.now) program) }
{
    let name = program_name(set, program);
    format!(in alloc; "`{name}`")
}

/// A sentence that begins with the first program, says something of the second, and goes on.
pub fn pair_sentence(
    alloc: Global,
    set: &ProgramSet,
    pair: Pair,
    verb: &str,
    rest: &str,
) -> Result<String, AllocError>
    ensures { IfOk result (λ words. string_bytes words
        ≡ pair_sentence (draft_tree set.now) pair verb.now rest.now) }
{
    let first = quoted_name(alloc, set, pair.from)?;
    let second = quoted_name(alloc, set, pair.to)?;
    let other = other_run(pair.from, pair.to);
    format!(in alloc; "{first} {verb} {other}{second}{rest}\n")
}
