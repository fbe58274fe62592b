//! The command `verify`: from a set and the bytes of a certificate to whether the set is robust.
ghost use Rattle.std.specs.Prelude.{◌≡◌, false, IfErr, OnOk};
ghost use Rattle.prog_tree.specs.Tree.{draft_tree};
ghost use Rattle.sirob.specs.FaultLines.{is_memory};
ghost use Rattle.sirob.specs.InputFaults.{IsFaultOfPart};
ghost use Rattle.sirob.specs.Output.{ShowsRobust};
ghost use Rattle.sirob.specs.Stops.{IsPartDone, WritesWithEnd};
ghost use Rattle.sirob.specs.declared.command_line.Mode.TheVariants as mode;

use crate::command_fault::CommandFault;
use crate::commands::robust::accept;
use crate::lines::write_lines;
use crate::status::Status;
use prog_check::ProgramSet;
use robust_cert::from_json;
use si_engine::Sink;
use std::alloc::Global;

const ROBUST_LINE: &[u8] = b"robust\n";

// Whether the bytes of a part are a certificate that is accepted for a set.
fn check_certificate(alloc: Global, set: ProgramSet, part: &[u8]) -> Result<(), CommandFault>
    ensures ok { OnOk result (ShowsRobust (draft_tree set) part.now) }
    ensures err { IfErr result (λ fault. is_memory fault ≡ false
        → IsFaultOfPart mode.Verify (draft_tree set) part.now fault) }
{
    let certificate = from_json(alloc, part)?;
    accept(alloc, set, &certificate)?;
    Ok(())
}

/// Writes that a set is robust, where the bytes of a part are a certificate that is accepted for
/// it.
pub fn verify_part<K: Sink>(
    alloc: Global,
    set: ProgramSet,
    part: &[u8],
    sink: &mut K,
) -> Result<Status, CommandFault>
    requires { K.has_failed sink.old ≡ false }
    ensures { WritesWithEnd (IsPartDone mode.Verify (draft_tree set) part.now)
        (K.has_failed sink.new) (K.taken sink.old) (K.taken sink.new) result }
{
    check_certificate(alloc, set, part)?;
    write_lines(sink, ROBUST_LINE, Ok(Status::Done))
}
