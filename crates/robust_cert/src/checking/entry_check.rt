//! The entries of a certificate, one after the other.
ghost use Rattle.std.specs.Prelude.{◌≡◌, ◌↔◌, ◌<◌, length, Some, slice_get, IsTrue, OnOk, IfErr};
ghost use Rattle.robust_cert.specs.declared.certificate.Certificate.{Certificate};
ghost use Rattle.robust_cert.specs.Refused.{IsOfSize, StandTo, IsBehindLast, IsFirstFault};
ghost use Rattle.robust_cert.specs.Flaws.{EntryStands, IsFaultAt};
ghost use Rattle.robust_cert.specs.Sharing.{Entry};

use crate::certificate::Certificate;
use crate::checking::flaw::{EntryFlaw, asked_pair, check_reason};
use crate::checking::numbers::AskedNumbers;
use crate::entries::Entries;
use crate::fault::CertFault;
use prog_check::Path;

// Whether the entry of a number stands behind the one before it.
fn is_behind_last(entries: &Entries, k: usize) -> bool
    requires { k < length entries.now }
    ensures { (e : Entry) → slice_get entries.now k ≡ Some e
        → (IsTrue result ↔ IsBehindLast entries.now k e) }
{
    if k == 0 {
        return true;
    }
    let last = AskedNumbers::from(entries.question(k - 1));
    let this = AskedNumbers::from(entries.question(k));
    last.is_before(this)
}

// Whether the entry of a number is about a question, stands behind the last, and says what holds.
fn check_entry(paths: &[Path], entries: &Entries, k: usize) -> Result<(), CertFault>
    requires { k < length entries.now }
    ensures stands { OnOk result (EntryStands paths.now entries.now k) }
    ensures fault { IfErr result (λ fault. IsFaultAt paths.now entries.now k fault) }
{
    let question = entries.question(k);
    let Some(asked) = asked_pair(paths, AskedNumbers::from(question)) else {
        return Err(CertFault::NoSuchEntry(k));
    };
    if !is_behind_last(entries, k) {
        return Err(CertFault::EntryOrder(k));
    }
    match check_reason(paths, question, asked, entries.reason(k)) {
        Ok(()) => Ok(()),
        Err(EntryFlaw::Cover) => Err(CertFault::BadCover(k)),
        Err(EntryFlaw::Chain) => Err(CertFault::BadChain(k)),
    }
}

/// Whether all entries rise and hold, or which is the first that doesn't.
pub fn check_entries(paths: &[Path], certificate: &Certificate) -> Result<(), CertFault>
    requires { IsOfSize paths.now certificate.now }
    ensures stand { OnOk result
        (StandTo paths.now certificate.now (length certificate.now.entries)) }
    ensures fault { IfErr result (λ fault. IsFirstFault paths.now certificate.now fault) }
{
    for k in 0..certificate.entries.len() {
        check_entry(paths, &certificate.entries, k)?;
    }
    Ok(())
}
