//! From the bytes of an input to a checked set, and to the part behind it.
ghost use Rattle.std.specs.Prelude.{◌≡◌, ◌≤◌, false, length, IfOk, IfErr};
ghost use Rattle.prog_tree.specs.Tree.{draft_tree};
ghost use Rattle.sirob.specs.FaultLines.{is_memory};
ghost use Rattle.si_engine.specs.Limits.{input_limit};
ghost use Rattle.sirob.specs.InputFaults.{IsFaultOfInput, IsFaultOfText};
ghost use Rattle.sirob.specs.Inputs.{IsSoundText, IsChecked};
ghost use Rattle.sirob.specs.Stops.{IsSetAndPart};

use crate::command_fault::CommandFault;
use crate::parts::{one_part, two_parts};
use prog_check::{ProgramSet, check};
use prog_text::parse;
use std::alloc::Global;

// The set that a text spells, where it has no fault.
fn read_set(alloc: Global, text: &[u8]) -> Result<ProgramSet, CommandFault>
    ensures ok { IfOk result (λ set. IsSoundText text.now (draft_tree set)) }
    ensures err { IfErr result (λ fault. is_memory fault ≡ false → IsFaultOfText text.now fault) }
{
    let draft = parse(alloc, text)?;
    Ok(check(alloc, draft)?)
}

/// The set of an input that is one text, where it has no fault.
pub fn read_text(alloc: Global, input: &[u8]) -> Result<ProgramSet, CommandFault>
    requires { length input.now ≤ input_limit }
    ensures ok { IfOk result (λ set. IsChecked input.now (draft_tree set)) }
    ensures err { IfErr result (λ fault. is_memory fault ≡ false
        → IsFaultOfInput 1 input.now fault) }
{
    let text = one_part(input)?;
    read_set(alloc, text)
}

/// A set, and the bytes of the part behind its text.
#[derive(Drop)]
pub struct ReadSet<'a> {
    pub set: ProgramSet,
    pub part: &'a [u8],
}

/// The set that the first part of an input spells, where it has no fault, and the bytes of the
/// second part.
pub fn read_text_and_part(alloc: Global, input: &[u8]) -> Result<ReadSet<'_>, CommandFault>
    requires { length input.now ≤ input_limit }
    ensures ok { IfOk result (λ read. IsSetAndPart input.now (draft_tree read.set) read.part.now) }
    ensures err { IfErr result (λ fault. is_memory fault ≡ false
        → IsFaultOfInput 2 input.now fault) }
{
    let parts = two_parts(input)?;
    let set = read_set(alloc, parts.text)?;
    Ok(ReadSet {
        set,
        part: parts.rest,
    })
}
