//! Calls that are made again where memory was refused. `tests/refused-calls` runs this test with
//! each request refused in turn, so that each call is refused each of its requests; by itself it
//! refuses none.

use crate::certificates::checked_tests::told;
use crate::examples::KEPT_PAYS;
use example_sets::{KEPT_PAY, TRANSFER, TRANSFER_CERTIFICATE, checked_when_asked_again};
use prog_check::ProgramSet;
use robust_cert::{CertFault, Certificate, JsonFault, RobustSet, from_json, verify};
use std::alloc::Global;
use std::test::Fail;

// What `from_json` answers, asked again where memory was refused.
fn read(alloc: Global, text: &str) -> Result<Certificate, JsonFault> {
    match from_json(alloc, text.as_bytes()) {
        Err(JsonFault::Memory) => from_json(alloc, text.as_bytes()),
        answer => answer,
    }
}

// What `verify` answers, asked again of the set that it hands back where memory was refused.
fn verified(
    alloc: Global,
    set: ProgramSet,
    certificate: &Certificate,
) -> Result<RobustSet, (ProgramSet, CertFault)> {
    match verify(alloc, set, certificate) {
        Err((set, CertFault::Memory)) => verify(alloc, set, certificate),
        answer => answer,
    }
}

/// What the checker says of a certificate for the set of a text: how many programs are robust.
fn said(
    alloc: Global,
    text: &str,
    certificate: &Certificate,
) -> Result<Result<usize, CertFault>, Fail> {
    let set = checked_when_asked_again(alloc, text)??;
    Ok(told(verified(alloc, set, certificate)))
}

/// The same of the text of a certificate.
fn said_of(alloc: Global, text: &str, written: &str) -> Result<Result<usize, CertFault>, Fail> {
    let certificate = read(alloc, written)?;
    let said = said(alloc, text, &certificate);
    drop(certificate);
    said
}

#[test]
fn certificates_are_read_and_checked_when_asked_again(rt: HostRuntime) -> Result<(), Fail> {
    for (text, written) in [(TRANSFER, TRANSFER_CERTIFICATE), (KEPT_PAY, KEPT_PAYS)] {
        let said = said_of(rt.alloc(), text, written)?;
        assert!(rt; said == Ok(1), "{text}");
    }
    Ok(())
}
