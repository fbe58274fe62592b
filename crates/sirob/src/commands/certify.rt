//! The command `certify`: from the bytes of its input to a certificate or the refusal of their set.
ghost use Rattle.std.specs.Prelude.{◌≡◌, ◌≤◌, false, [], length, IfOk, IfErr};
ghost use Rattle.prog_check.specs.Paths.{paths_of};
ghost use Rattle.prog_tree.specs.Tree.{draft_tree};
ghost use Rattle.si_engine.specs.Limits.{input_limit};
ghost use Rattle.si_repair.specs.Findings.{AsksFew, IsRightFinding};
ghost use Rattle.sirob.specs.FaultLines.{is_memory};
ghost use Rattle.sirob.specs.Inputs.{IsChecked};
ghost use Rattle.sirob.specs.Refusal.{refusal_text};
ghost use Rattle.sirob.specs.Stops.{IsCertificateOrStop, IsInputDone, IsStop, IsTextOrStop};
ghost use Rattle.sirob.specs.Stops.{IsUnanalysedBy, WritesWithEnd};
ghost use Rattle.sirob.specs.declared.command_line.Mode.TheVariants as mode;
ghost use Rattle.sirob.specs.declared.status.Status.TheVariants as status;

use crate::command_fault::CommandFault;
use crate::commands::refusal::refusal_text;
use crate::input::read_text;
use crate::lines::{write_lines, write_pieces};
use crate::sentences::kept::Kept;
use crate::status::Status;
use dep_graph::Danger;
use prog_check::ProgramSet;
use robust_cert::{Certificate, CertificateText};
use si_engine::{PartFault, Sink};
use si_repair::{Finding, certify_par};
use std::alloc::Global;
use std::thread::Threads;

// Writes the text of a certificate, piece by piece, and a line feed; or nothing where memory runs
// out.
fn write_certificate<K: Sink>(
    rt: &(impl AllocGlobal + Threads + Sync),
    certificate: &Certificate,
    sink: &mut K,
) -> Result<Status, CommandFault>
    requires { K.has_failed sink.old ≡ false }
    ensures { WritesWithEnd (IsCertificateOrStop certificate.now)
        (K.has_failed sink.new) (K.taken sink.old) (K.taken sink.new) result }
{
    let mut text = CertificateText::for_threads(rt.alloc(), certificate)?;
    match write_pieces(rt, sink, &mut text) {
        Ok(()) => write_lines(sink, b"\n", Ok(Status::Done)),
        Err(_) => Err(CommandFault::Part(PartFault::WriteFault)),
    }
}

// Writes the refusal of a set, or nothing where memory runs out.
fn write_refusal<K: Sink>(
    alloc: Global,
    set: &ProgramSet,
    danger: &Danger,
    sink: &mut K,
) -> Result<Status, CommandFault>
    requires { K.has_failed sink.old ≡ false }
    ensures { WritesWithEnd
        (IsTextOrStop (refusal_text (draft_tree set.now) danger.now) status.Unserializable)
        (K.has_failed sink.new) (K.taken sink.old) (K.taken sink.new) result }
{
    let text = refusal_text(alloc, set, danger)?;
    write_lines(sink, text.as_bytes(), Ok(Status::Unserializable))
}

// What an analysis finds of a set.
fn analyse(
    rt: &(impl AllocGlobal + Threads + Sync),
    set: &ProgramSet,
) -> Result<Finding, CommandFault>
    ensures ok { IfOk result (λ finding. AsksFew (draft_tree set.now)
        × IsRightFinding (paths_of (draft_tree set.now)) finding) }
    ensures err { IfErr result (λ fault. is_memory fault ≡ false
        → IsUnanalysedBy (draft_tree set.now) fault) }
{
    let finding = certify_par(rt, rt.alloc(), set)?;
    Ok(finding)
}

// The set that an input spells, and what an analysis finds of it.
fn input_finding(
    rt: &(impl AllocGlobal + Threads + Sync),
    input: &[u8],
) -> Result<(ProgramSet, Finding), CommandFault>
    requires { length input.now ≤ input_limit }
    ensures ok { IfOk result (λ told. IsChecked input.now (draft_tree told.0)
        × AsksFew (draft_tree told.0)
        × IsRightFinding (paths_of (draft_tree told.0)) told.1) }
    ensures err { IfErr result (λ fault. IsStop mode.Certify input.now fault []) }
{
    let set = read_text(rt.alloc(), input)?;
    let finding = analyse(rt, &set)?;
    Ok((set, finding))
}

/// Writes the certificate or the refusal of the set that an input spells. The set is kept, and what
/// was found.
pub fn certify_input<K: Sink>(
    rt: &(impl AllocGlobal + Threads + Sync),
    input: &[u8],
    sink: &mut K,
    kept: &mut Kept,
) -> Result<Status, CommandFault>
    requires short { length input.now ≤ input_limit }
    requires working { K.has_failed sink.old ≡ false }
    ensures { WritesWithEnd (IsInputDone mode.Certify input.now)
        (K.has_failed sink.new) (K.taken sink.old) (K.taken sink.new) result }
{
    let (set, finding) = input_finding(rt, input)?;
    let ended = match &finding {
        Finding::Robust(certificate) => write_certificate(rt, certificate, sink),
        Finding::Refused(danger) => write_refusal(rt.alloc(), &set, danger, sink),
    };
    kept.set = Some(set);
    kept.found = Some(finding);
    ended
}
