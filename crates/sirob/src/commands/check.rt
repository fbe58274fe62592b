//! The command `check`: from the bytes of its input to the canonical text of their set.
ghost use Rattle.std.specs.Prelude.{◌≡◌, ◌≤◌, false, [], length, IfOk, IfErr};
ghost use Rattle.si_engine.specs.Limits.{input_limit};
ghost use Rattle.sirob.specs.Output.{Gives};
ghost use Rattle.sirob.specs.Stops.{IsStop, IsInputDone, WritesWithEnd};
ghost use Rattle.sirob.specs.declared.command_line.Mode.TheVariants as mode;
ghost use Rattle.sirob.specs.declared.status.Status.TheVariants as status;

use crate::command_fault::CommandFault;
use crate::input::read_text;
use crate::lines::write_lines;
use crate::sentences::kept::Kept;
use crate::status::Status;
use prog_check::ProgramSet;
use prog_text::print;
use si_engine::Sink;
use std::alloc::Global;

// The canonical text of the set that an input spells. The set is kept.
fn canonical_text(
    alloc: Global,
    input: &[u8],
    kept: &mut Option<ProgramSet>,
) -> Result<Vec<u8>, CommandFault>
    requires { length input.now ≤ input_limit }
    ensures ok { IfOk result (λ text. Gives mode.Check input.now text.items status.Done) }
    ensures err { IfErr result (λ fault. IsStop mode.Check input.now fault []) }
{
    let set = read_text(alloc, input)?;
    let text = print(alloc, set.draft())?;
    *kept = Some(set);
    Ok(text)
}

/// Writes the canonical text of the set that an input spells. The set is kept.
pub fn check_input<K: Sink>(
    alloc: Global,
    input: &[u8],
    sink: &mut K,
    kept: &mut Kept,
) -> Result<Status, CommandFault>
    requires short { length input.now ≤ input_limit }
    requires working { K.has_failed sink.old ≡ false }
    ensures { WritesWithEnd (IsInputDone mode.Check input.now)
        (K.has_failed sink.new) (K.taken sink.old) (K.taken sink.new) result }
{
    let text = canonical_text(alloc, input, &mut kept.set)?;
    write_lines(sink, &text, Ok(Status::Done))
}
