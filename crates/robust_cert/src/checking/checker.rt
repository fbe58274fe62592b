//! The checker of certificates.
ghost use Rattle.std.specs.Prelude.{◌≡◌, length, OnOk, IfOk, IfErr};
ghost use Rattle.prog_tree.specs.Tree.{draft_tree};
ghost use Rattle.prog_check.specs.Paths.{paths_of};
ghost use Rattle.robust_cert.specs.declared.fault.CertFault.{CertFault};
ghost use Rattle.robust_cert.specs.Accepted.{IsAccepted};
ghost use Rattle.robust_cert.specs.Refused.{IsOfSize, StandTo, IsFirstFault};

use crate::certificate::Certificate;
use crate::checking::bodies::are_body_sizes;
use crate::checking::entry_check::check_entries;
use crate::checking::left::left_of;
use crate::checking::levels::check_levels;
use crate::fault::CertFault;
use crate::robust::RobustSet;
use prog_check::{Path, ProgramSet};
use prog_paths::{is_too_large, paths};
use std::alloc::Global;

fn check_size(paths: &[Path], certificate: &Certificate) -> Result<(), CertFault>
    ensures size { OnOk result (IsOfSize paths.now certificate.now) }
    ensures fault { IfErr result (λ fault. IsFirstFault paths.now certificate.now fault) }
{
    if is_too_large(paths) {
        return Err(CertFault::TooLarge);
    }
    if certificate.levels.len() != paths.len() {
        return Err(CertFault::PathCount);
    }
    if !are_body_sizes(certificate.bodies.as_slice(), paths) {
        return Err(CertFault::PathCount);
    }
    Ok(())
}

// Whether the levels rise over what the entries leave, which all hold.
fn check_left(alloc: Global, paths: &[Path], certificate: &Certificate) -> Result<(), CertFault>
    requires { StandTo paths.now certificate.now (length certificate.now.entries) }
    ensures accepted { OnOk result (IsAccepted paths.now certificate.now) }
    ensures fault { IfErr result (λ fault. IsFirstFault paths.now certificate.now fault) }
{
    let left = left_of(alloc, paths, &certificate.entries)?;
    check_levels(&left, certificate.levels.as_slice())
}

fn check(alloc: Global, set: &ProgramSet, certificate: &Certificate) -> Result<(), CertFault>
    ensures accepted { OnOk result
        (IsAccepted (paths_of (draft_tree set.now)) certificate.now) }
    ensures fault { IfErr result
        (λ fault. IsFirstFault (paths_of (draft_tree set.now)) certificate.now fault) }
{
    let paths = paths(alloc, set)?;
    check_size(&paths, certificate)?;
    check_entries(&paths, certificate)?;
    check_left(alloc, &paths, certificate)
}

/// The set as a robust one, where the certificate is accepted for it; else the set again, with the
/// certificate's first fault. Numbers are compared and chains are read; no path is followed.
pub fn verify(
    alloc: Global,
    set: ProgramSet,
    certificate: &Certificate,
) -> Result<RobustSet, (ProgramSet, CertFault)>
    ensures accepted { IfOk result (λ robust. (robust ≡ set)
        × IsAccepted (paths_of (draft_tree set)) certificate.now) }
    ensures refused { IfErr result (λ refusal. (refusal.0 ≡ set)
        × IsFirstFault (paths_of (draft_tree set)) certificate.now refusal.1) }
    ensures taken { IsAccepted (paths_of (draft_tree set)) certificate.now
        → IfErr result (λ refusal. refusal.1 ≡ CertFault.Memory) }
{
    match check(alloc, &set, certificate) {
        Ok(()) => Ok(RobustSet::accepted(set)),
        Err(fault) => Err((set, fault)),
    }
}
