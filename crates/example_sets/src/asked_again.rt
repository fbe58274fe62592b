//! Calls that are made again where memory was refused.

ghost use Rattle.std.specs.Prelude.{◌≡◌, IfOk, IfErr};
ghost use Rattle.prog_check.specs.Faults.{first_fault};
ghost use Rattle.prog_check.specs.Sets.{Finds};
ghost use Rattle.prog_text.specs.Answer.{Accepts, Refuses};
ghost use Rattle.prog_tree.specs.Syntax.{DraftTree};
ghost use Rattle.prog_tree.specs.Tree.{draft_tree};

use prog_check::{CheckFault, ProgramSet, check};
use prog_text::{TextFault, parse};
use prog_tree::Draft;
use std::alloc::Global;

/// What `parse` answers, asked again where memory was refused.
pub fn parsed_when_asked_again(alloc: Global, text: &str) -> Result<Draft, TextFault>
    ensures found { IfOk result (λ draft. Accepts text.now (draft_tree draft)) }
    ensures refused { IfErr result (Refuses text.now) }
{
    match parse(alloc, text.as_bytes()) {
        Err(TextFault::Memory) => parse(alloc, text.as_bytes()),
        answer => answer,
    }
}

// What `check` answers of the draft of a text.
fn checked(alloc: Global, text: &str) -> Result<Result<ProgramSet, CheckFault>, TextFault>
    ensures found { IfOk result (λ checked. (d : DraftTree) × Accepts text.now d
        × Finds (λ set. draft_tree set ≡ d) checked (first_fault d)) }
    ensures refused { IfErr result (Refuses text.now) }
{
    let draft = parsed_when_asked_again(alloc, text)?;
    Ok(check(alloc, draft))
}

/// What `check` answers of the draft of a text, asked again where memory was refused.
pub fn checked_when_asked_again(
    alloc: Global,
    text: &str,
) -> Result<Result<ProgramSet, CheckFault>, TextFault>
    ensures found { IfOk result (λ checked. (d : DraftTree) × Accepts text.now d
        × Finds (λ set. draft_tree set ≡ d) checked (first_fault d)) }
    ensures refused { IfErr result (Refuses text.now) }
{
    match checked(alloc, text)? {
        Err(CheckFault::Memory) => checked(alloc, text),
        answer => Ok(answer),
    }
}
