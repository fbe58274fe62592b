//! Does jobs by workers, from a source to a sink.
ghost use Rattle.std.specs.Prelude.{◌≡◌, ◌≤◌, ◌+◌, false, length};
ghost use Rattle.si_engine.specs.Limits.{input_limit};
ghost use Rattle.sirob.specs.Output.{IsReply, WritesWithStatus};
ghost use Rattle.sirob.specs.Stops.{IsInputDone, IsSourceDone, WritesWithEnd};
ghost use Rattle.sirob.specs.declared.command_line.Mode.TheVariants as mode;

use crate::command_fault::CommandFault;
use crate::command_line::Mode;
use crate::commands::work::work_part;
use crate::input::{ReadSet, read_text_and_part};
use crate::lines::write_end;
use crate::progress::Watched;
use crate::sentences::kept::Kept;
use crate::sentences::words::explain;
use crate::status::Status;
use si_engine::{MAX_READS, Sink, Source, read_whole};
use std::mem;
use std::rt::Clock;
use std::sync::Wait;
use std::thread::Threads;

// Does the jobs of an input.
fn work_input<R: AllocGlobal + Eprint + Clock + Watched + Threads + Wait + Sync, K: Sink>(
    rt: &R,
    workers: u8,
    input: &[u8],
    sink: &mut K,
    kept: &mut Kept,
) -> Result<Status, CommandFault>
    requires short { length input.now ≤ input_limit }
    requires working { K.has_failed sink.old ≡ false }
    ensures { WritesWithEnd (IsInputDone (mode.Work workers) input.now)
        (K.has_failed sink.new) (K.taken sink.old) (K.taken sink.new) result }
{
    let ReadSet { set, part } = read_text_and_part(rt.alloc(), input)?;
    work_part(rt, workers, set, part, sink, kept)
}

// Reads all of a source, keeps it, and does its jobs.
fn work_source<
    R: AllocGlobal + Eprint + Clock + Watched + Threads + Wait + Sync,
    S: Source,
    K: Sink,
>(
    rt: &R,
    workers: u8,
    source: &mut S,
    sink: &mut K,
    kept: &mut Kept,
) -> Result<Status, CommandFault>
    requires { K.has_failed sink.old ≡ false }
    ensures done { WritesWithEnd
        (IsSourceDone (mode.Work workers) (S.left source.old) (S.has_failed source.new))
        (K.has_failed sink.new) (K.taken sink.old) (K.taken sink.new) result }
    ensures reads { S.pulls source.new ≤ S.pulls source.old + MAX_READS }
{
    let input = read_whole(rt.alloc(), source)?;
    let ended = work_input(rt, workers, &input, sink, kept);
    kept.input = input;
    ended
}

/// Reads all of a source, does its jobs by so many workers where its set is robust, and writes how
/// many ended in which way, and the rows that are left. What is wrong goes to the standard error in
/// words, behind the answer; on a terminal, that also tells how many jobs have ended so far.
pub fn run_work<
    R: AllocGlobal + Eprint + Clock + Watched + Threads + Wait + Sync,
    S: Source,
    K: Sink,
>(rt: &R, workers: u8, source: &mut S, sink: &mut K) -> Status
    ensures reply { WritesWithStatus
        (IsReply (mode.Work workers) (S.left source.old) (S.has_failed source.new))
        (K.has_failed sink.new) (K.taken sink.old) (K.taken sink.new) result }
    ensures reads { S.pulls source.new ≤ S.pulls source.old + MAX_READS }
{
    if sink.failed() {
        return Status::Faulty;
    }
    let mut kept = Kept::new(rt.alloc());
    let ended = work_source(rt, workers, source, sink, &mut kept);
    if sink.failed() {
        return Status::Faulty;
    }
    let status = write_end(rt.alloc(), sink, ended);
    explain(rt, Mode::Work { workers }, &kept, ended);
    // The process ends behind the words: the system takes what was kept back as a whole.
    mem::forget(kept);
    status
}
