//! The command `run`: from the bytes of a script to the lines of its output.
ghost use Rattle.std.specs.Prelude.{◌≡◌, ◌≤◌, length, false, true};
ghost use Rattle.prog_tree.specs.Tree.{draft_tree};
ghost use Rattle.si_engine.specs.Limits.{input_limit};
ghost use Rattle.sirob.specs.Inputs.{IsRobust};
ghost use Rattle.sirob.specs.Stops.{IsPartDone, as_command, WritesWithEnd};
ghost use Rattle.sirob.specs.declared.command_line.Mode.TheVariants as mode;

use crate::command_fault::CommandFault;
use crate::commands::robust::{Verified, assess};
use crate::lines::write_lines;
use crate::sentences::kept::Kept;
use crate::sentences::runs::Keeper;
use crate::status::Status;
use prog_check::ProgramSet;
use robust_cert::RobustSet;
use si_engine::{
    Bytes, PartFault, Serializability, Sink, run_robust_script_before, run_script_before,
};
use std::alloc::Global;
use std::thread::Threads;

// The end of a script's run as that of a command.
fn as_command(ran: Result<Serializability, PartFault>) -> Result<Status, CommandFault>
    ensures { result ≡ as_command ran }
{
    Ok(Status::of(ran?))
}

/// Runs the script that the bytes of a part are. Each event writes a line, then each row, and last
/// the order or the cycle; where memory runs out, some first lines were written. What there is to
/// say of it is kept.
pub fn run_part<K: Sink>(
    alloc: Global,
    set: &ProgramSet,
    part: &[u8],
    sink: &mut K,
    kept: &mut Kept,
) -> Result<Status, CommandFault>
    requires { length part.now ≤ input_limit }
    ensures { WritesWithEnd (IsPartDone (mode.Run false) (draft_tree set.now) part.now)
        (K.has_failed sink.new) (K.taken sink.old) (K.taken sink.new) result }
{
    let mut keeper = Keeper { alloc, part, kept };
    let ran = run_script_before(alloc, set, &mut Bytes::new(part), sink, &mut keeper);
    as_command(ran)
}

// Runs the script on a set that was found robust.
fn run_verified<K: Sink>(
    alloc: Global,
    set: &RobustSet,
    part: &[u8],
    sink: &mut K,
    kept: &mut Kept,
) -> Result<Status, CommandFault>
    requires short { length part.now ≤ input_limit }
    requires robust { IsRobust (draft_tree set.now) }
    ensures { WritesWithEnd (IsPartDone (mode.Run true) (draft_tree set.now) part.now)
        (K.has_failed sink.new) (K.taken sink.old) (K.taken sink.new) result }
{
    let mut keeper = Keeper { alloc, part, kept };
    let ran = run_robust_script_before(alloc, set, &mut Bytes::new(part), sink, &mut keeper);
    as_command(ran)
}

/// As `run_part`, where the set is robust; else writes its refusal, and keeps what refuses it.
pub fn run_robust_part<K: Sink>(
    rt: &(impl AllocGlobal + Threads + Sync),
    set: ProgramSet,
    part: &[u8],
    sink: &mut K,
    kept: &mut Kept,
) -> Result<Status, CommandFault>
    requires short { length part.now ≤ input_limit }
    requires working { K.has_failed sink.old ≡ false }
    ensures { WritesWithEnd (IsPartDone (mode.Run true) (draft_tree set) part.now)
        (K.has_failed sink.new) (K.taken sink.old) (K.taken sink.new) result }
{
    match assess(rt, set, kept)? {
        Verified::Robust(set) => run_verified(rt.alloc(), &set, part, sink, kept),
        Verified::Refused(text) => {
            write_lines(sink, text.as_bytes(), Ok(Status::Unserializable))
        }
    }
}
