//! Whether a set is robust, by an analysis and the checker of its certificate.
ghost use Rattle.std.specs.Prelude.{◌≡◌, false, true, IfOk, IfErr};
ghost use Rattle.prog_tree.specs.Tree.{draft_tree};
ghost use Rattle.prog_check.specs.Paths.{paths_of};
ghost use Rattle.robust_cert.specs.Accepted.{IsAccepted};
ghost use Rattle.robust_cert.specs.Refused.{IsFirstFault};
ghost use Rattle.robust_cert.specs.declared.fault.CertFault.{CertFault};
ghost use Rattle.sirob.specs.declared.command_fault.CommandFault.TheVariants as command_fault;
ghost use Rattle.sirob.specs.FaultLines.{is_memory};
ghost use Rattle.sirob.specs.Stops.{IsUnanalysedBy, IsVerified};

use crate::command_fault::CommandFault;
use crate::commands::refusal::refusal_text;
use crate::sentences::kept::Kept;
use prog_check::ProgramSet;
use robust_cert::{Certificate, RobustSet, verify};
use si_repair::{Finding, certify_par};
use std::alloc::Global;
use std::thread::Threads;

/// A set with an accepted certificate, or the text that refuses it.
#[derive(Drop)]
pub enum Verified {
    Robust(RobustSet),
    Refused(String),
}

/// The set as a robust one, where the checker accepts a certificate for it.
pub fn accept(
    alloc: Global,
    set: ProgramSet,
    certificate: &Certificate,
) -> Result<RobustSet, CommandFault>
    ensures accepted { IfOk result (λ robust. (robust ≡ set)
        × IsAccepted (paths_of (draft_tree set)) certificate.now) }
    ensures refused { IfErr result (λ fault. (f : CertFault)
        × (fault ≡ command_fault.Certificate f)
        × IsFirstFault (paths_of (draft_tree set)) certificate.now f) }
    ensures taken { IsAccepted (paths_of (draft_tree set)) certificate.now
        → IfErr result (λ fault. is_memory fault ≡ true) }
{
    match verify(alloc, set, certificate) {
        Ok(robust) => Ok(robust),
        Err((_, fault)) => Err(CommandFault::Certificate(fault)),
    }
}

/// The set as a robust one, where an analysis finds a certificate and the checker accepts it; else
/// its refusal. Then the set is kept, and what refuses it.
pub fn assess(
    rt: &(impl AllocGlobal + Threads + Sync),
    set: ProgramSet,
    kept: &mut Kept,
) -> Result<Verified, CommandFault>
    ensures ok { IfOk result (λ verified. IsVerified set verified) }
    ensures err { IfErr result (λ fault. is_memory fault ≡ false
        → IsUnanalysedBy (draft_tree set) fault) }
{
    let alloc = rt.alloc();
    match certify_par(rt, alloc, &set)? {
        Finding::Robust(certificate) => {
            let robust = accept(alloc, set, &certificate)?;
            Ok(Verified::Robust(robust))
        }
        Finding::Refused(danger) => {
            let text = refusal_text(alloc, &set, &danger)?;
            kept.set = Some(set);
            kept.found = Some(Finding::Refused(danger));
            Ok(Verified::Refused(text))
        }
    }
}
