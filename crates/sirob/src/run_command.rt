//! Carries out what the words ask for, from a source to a sink.
ghost use Rattle.std.specs.Prelude.{◌≡◌, ◌≤◌, ◌+◌, false, length};
ghost use Rattle.si_engine.specs.Limits.{input_limit};
ghost use Rattle.sirob.specs.Inputs.{is_work, parts_wanted};
ghost use Rattle.sirob.specs.Output.{IsReply, WritesWithStatus};
ghost use Rattle.sirob.specs.Stops.{IsInputDone, IsSourceDone, WritesWithEnd};

use crate::command_fault::CommandFault;
use crate::command_line::Mode;
use crate::commands::audit::audit_part;
use crate::commands::certify::certify_input;
use crate::commands::check::check_input;
use crate::commands::repair::repair_input;
use crate::commands::run::{run_part, run_robust_part};
use crate::commands::verify::verify_part;
use crate::input::{ReadSet, read_text_and_part};
use crate::lines::write_end;
use crate::sentences::kept::Kept;
use crate::sentences::words::explain;
use crate::status::Status;
use si_engine::{MAX_READS, Sink, Source, read_whole};
use std::mem;
use std::thread::Threads;

// Does with the second part of an input what the mode asks for.
fn part_input<K: Sink>(
    rt: &(impl AllocGlobal + Threads + Sync),
    mode: Mode,
    input: &[u8],
    sink: &mut K,
    kept: &mut Kept,
) -> Result<Status, CommandFault>
    requires short { length input.now ≤ input_limit }
    requires working { K.has_failed sink.old ≡ false }
    requires two { parts_wanted mode ≡ 2 }
    requires no_work { is_work mode ≡ false }
    ensures { WritesWithEnd (IsInputDone mode input.now)
        (K.has_failed sink.new) (K.taken sink.old) (K.taken sink.new) result }
{
    let alloc = rt.alloc();
    let ReadSet { set, part } = read_text_and_part(alloc, input)?;
    match mode {
        Mode::Check | Mode::Certify | Mode::Repair { .. } | Mode::Work { .. } => unreachable!(),
        Mode::Verify => verify_part(alloc, set, part, sink),
        Mode::Run { robust: false } => run_part(alloc, &set, part, sink, kept),
        Mode::Run { robust: true } => run_robust_part(rt, set, part, sink, kept),
        Mode::Audit => audit_part(alloc, &set, part, sink, kept),
    }
}

// Does with an input what the mode asks for.
fn answer_input<K: Sink>(
    rt: &(impl AllocGlobal + Threads + Sync),
    mode: Mode,
    input: &[u8],
    sink: &mut K,
    kept: &mut Kept,
) -> Result<Status, CommandFault>
    requires short { length input.now ≤ input_limit }
    requires working { K.has_failed sink.old ≡ false }
    requires no_work { is_work mode ≡ false }
    ensures { WritesWithEnd (IsInputDone mode input.now)
        (K.has_failed sink.new) (K.taken sink.old) (K.taken sink.new) result }
{
    match mode {
        Mode::Check => check_input(rt.alloc(), input, sink, kept),
        Mode::Certify => certify_input(rt, input, sink, kept),
        Mode::Repair { promote } => repair_input(rt.alloc(), promote, input, sink, kept),
        Mode::Verify | Mode::Run { .. } | Mode::Audit => { part_input(rt, mode, input, sink, kept) }
        Mode::Work { .. } => unreachable!(),
    }
}

// Reads all of a source, keeps it, and does with it what the mode asks for.
fn answer_source<S: Source, K: Sink>(
    rt: &(impl AllocGlobal + Threads + Sync),
    mode: Mode,
    source: &mut S,
    sink: &mut K,
    kept: &mut Kept,
) -> Result<Status, CommandFault>
    requires working { K.has_failed sink.old ≡ false }
    requires no_work { is_work mode ≡ false }
    ensures done { WritesWithEnd (IsSourceDone mode (S.left source.old) (S.has_failed source.new))
        (K.has_failed sink.new) (K.taken sink.old) (K.taken sink.new) result }
    ensures reads { S.pulls source.new ≤ S.pulls source.old + MAX_READS }
{
    let input = read_whole(rt.alloc(), source)?;
    let ended = answer_input(rt, mode, &input, sink, kept);
    kept.input = input;
    ended
}

/// Reads all of a source, does what the mode asks for, which is no work, and writes the answer to a
/// sink. A source that failed is a fault of the input; of a sink that failed, the status is that of
/// a fault. What is wrong goes to the standard error in words, behind the answer.
pub fn run_command<S: Source, K: Sink>(
    rt: &(impl AllocGlobal + Eprint + Threads + Sync),
    mode: Mode,
    source: &mut S,
    sink: &mut K,
) -> Status
    requires { is_work mode ≡ false }
    ensures reply { WritesWithStatus (IsReply mode (S.left source.old) (S.has_failed source.new))
        (K.has_failed sink.new) (K.taken sink.old) (K.taken sink.new) result }
    ensures reads { S.pulls source.new ≤ S.pulls source.old + MAX_READS }
{
    if sink.failed() {
        return Status::Faulty;
    }
    let alloc = rt.alloc();
    let mut kept = Kept::new(alloc);
    let ended = answer_source(rt, mode, source, sink, &mut kept);
    if sink.failed() {
        return Status::Faulty;
    }
    let status = write_end(alloc, sink, ended);
    explain(rt, mode, &kept, ended);
    // The process ends behind the words: the system takes what was kept back as a whole.
    mem::forget(kept);
    status
}
