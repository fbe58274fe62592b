//! Lines that a command writes to its sink, and the one behind them.
ghost use Rattle.std.specs.Io.KnownBytes.{Appends};
ghost use Rattle.std.specs.Prelude.{◌≡◌, ◌↔◌, true, Err, IsErr, OnOk, OnErr};
ghost use Rattle.robust_cert.specs.Pieces.{text_left};
ghost use Rattle.si_engine.specs.Writing.{AppendsFront, IsJust};
ghost use Rattle.sirob.specs.FaultLines.{is_memory};
ghost use Rattle.sirob.specs.Output.{WritesWithStatus};
ghost use Rattle.sirob.specs.Stops.{Ends, WritesWithEnd};

use crate::command_fault::{CommandFault, fault_line};
use crate::status::Status;
use robust_cert::CertificateText;
use si_engine::{DeviceFault, PartFault, Sink, write_or, write_whole};
use std::alloc::Global;
use std::thread::Threads;

/// The line of want of memory.
pub const MEMORY_LINE: &[u8] = b"fault memory\n";

/// Writes lines, and answers with the end that is given, or that the sink failed.
pub fn write_lines<K: Sink>(
    sink: &mut K,
    lines: &[u8],
    ended: Result<Status, CommandFault>,
) -> Result<Status, CommandFault>
    ensures { WritesWithEnd (IsJust lines.now ended)
        (K.has_failed sink.new) (K.taken sink.old) (K.taken sink.new) result }
{
    let lost = CommandFault::Part(PartFault::WriteFault);
    write_or(sink, lines, ended, Err(lost))
}

/// Writes what is left of a certificate's text, piece by piece, or some first bytes of it where the
/// sink fails.
pub fn write_pieces<K: Sink>(
    rt: &(impl Threads + Sync),
    sink: &mut K,
    text: &mut CertificateText<'_>,
) -> Result<(), DeviceFault>
    ensures fault { IsErr result ↔ (K.has_failed sink.new ≡ true) }
    ensures whole { OnOk result
        (Appends (K.taken sink.old) (K.taken sink.new) (text_left text.old)) }
    ensures first { OnErr result
        (AppendsFront (K.taken sink.old) (K.taken sink.new) (text_left text.old)) }
{
    write_whole(sink, text.piece().as_bytes())?;
    while text.has_more() {
        text.advance_par(rt);
        write_whole(sink, text.piece().as_bytes())?;
    }
    Ok(())
}

/// Writes the last bytes; the status is the one given, or that of a failed write.
pub fn write_last<K: Sink>(sink: &mut K, bytes: &[u8], status: Status) -> Status
    ensures { WritesWithStatus (IsJust bytes.now status)
        (K.has_failed sink.new) (K.taken sink.old) (K.taken sink.new) result }
{
    write_or(sink, bytes, status, Status::Faulty)
}

// Writes the line of a fault, alone.
fn write_fault<K: Sink>(alloc: Global, sink: &mut K, fault: CommandFault) -> Status
    ensures { WritesWithStatus (Ends (Err fault))
        (K.has_failed sink.new) (K.taken sink.old) (K.taken sink.new) result }
{
    if fault.is_memory() {
        return write_last(sink, MEMORY_LINE, Status::Memory);
    }
    match fault_line(alloc, fault) {
        Ok(line) => write_last(sink, line.as_bytes(), Status::Faulty),
        Err(_) => write_last(sink, MEMORY_LINE, Status::Memory),
    }
}

/// Writes what stands behind the lines of a command: nothing, or the line of the fault that
/// stopped it.
pub fn write_end<K: Sink>(
    alloc: Global,
    sink: &mut K,
    ended: Result<Status, CommandFault>,
) -> Status
    ensures { WritesWithStatus (Ends ended)
        (K.has_failed sink.new) (K.taken sink.old) (K.taken sink.new) result }
{
    match ended {
        Ok(status) => write_last(sink, b"", status),
        Err(fault) => write_fault(alloc, sink, fault),
    }
}
