//! The command `repair`: from the bytes of its input to the canonical text of their set, repaired.
ghost use Rattle.std.specs.Prelude.{◌≡◌, ◌≤◌, false, [], length, IfOk, IfErr};
ghost use Rattle.prog_tree.specs.Tree.{draft_tree};
ghost use Rattle.si_engine.specs.Limits.{input_limit};
ghost use Rattle.sirob.specs.FaultLines.{is_memory};
ghost use Rattle.sirob.specs.Inputs.{IsRepaired};
ghost use Rattle.sirob.specs.Output.{Gives};
ghost use Rattle.sirob.specs.Stops.{IsStop, IsInputDone, IsUnrepairedBy, WritesWithEnd};
ghost use Rattle.sirob.specs.declared.command_line.Mode.TheVariants as mode;
ghost use Rattle.sirob.specs.declared.status.Status.TheVariants as status;

use crate::command_fault::CommandFault;
use crate::input::read_text;
use crate::lines::write_lines;
use crate::sentences::kept::{Kept, PlannedRepair};
use crate::status::Status;
use prog_check::ProgramSet;
use prog_text::print;
use si_engine::Sink;
use si_repair::{materialise, plan, promote};
use std::alloc::Global;

// The set as its plan repairs it.
fn repair_set(
    alloc: Global,
    promoting: bool,
    set: &ProgramSet,
) -> Result<PlannedRepair, CommandFault>
    ensures ok { IfOk result (λ repair.
        IsRepaired promoting (draft_tree set.now) (draft_tree repair.repaired)) }
    ensures err { IfErr result (λ fault. is_memory fault ≡ false
        → IsUnrepairedBy promoting (draft_tree set.now) fault) }
{
    let plan = plan(alloc, set)?;
    let repaired = if promoting {
        promote(alloc, set, &plan)?
    } else {
        materialise(alloc, set, &plan)?
    };
    Ok(PlannedRepair { plan, repaired })
}

// The canonical text of the set that an input spells, repaired. The set is kept, and the repair.
fn repaired_text(
    alloc: Global,
    promoting: bool,
    input: &[u8],
    kept: &mut Kept,
) -> Result<Vec<u8>, CommandFault>
    requires { length input.now ≤ input_limit }
    ensures ok { IfOk result
        (λ text. Gives (mode.Repair promoting) input.now text.items status.Done) }
    ensures err { IfErr result (λ fault. IsStop (mode.Repair promoting) input.now fault []) }
{
    let set = read_text(alloc, input)?;
    let repair = repair_set(alloc, promoting, &set)?;
    let text = print(alloc, repair.repaired.draft())?;
    kept.set = Some(set);
    kept.repair = Some(repair);
    Ok(text)
}

/// Writes the canonical text of the set that an input spells, repaired: by the rows that its
/// programs read, or by tables of their own. The set is kept, and the repair.
pub fn repair_input<K: Sink>(
    alloc: Global,
    promoting: bool,
    input: &[u8],
    sink: &mut K,
    kept: &mut Kept,
) -> Result<Status, CommandFault>
    requires short { length input.now ≤ input_limit }
    requires working { K.has_failed sink.old ≡ false }
    ensures { WritesWithEnd (IsInputDone (mode.Repair promoting) input.now)
        (K.has_failed sink.new) (K.taken sink.old) (K.taken sink.new) result }
{
    let text = repaired_text(alloc, promoting, input, kept)?;
    write_lines(sink, &text, Ok(Status::Done))
}
