//! What the analysis of sets finds: the text of a certificate, or the least dangerous structure.

use crate::dangers::{DANGEROUS, Structure, is_structure};
use crate::examples::{KEPT_PAYS, KEPT_REPORTS, reason_count};
use crate::repairs::sets::{APART, APART_TWICE, COLUMNS, KEPT_REPORT};
use example_sets::{KEPT_PAY, LEDGER, TRANSFER, TRANSFER_CERTIFICATE, set_of};
use robust_cert::{Certificate, to_json};
use si_repair::{Finding, certify, certify_par};
use std::alloc::Global;
use std::process::Abort;
use std::test::Fail;
use std::thread::Threads;

/// What is found of the set of a text.
fn found(alloc: Global, text: &str) -> Result<Finding, Fail> {
    let set = set_of(alloc, text)?;
    let found = certify(alloc, &set);
    drop(set);
    Ok(found?)
}

/// The same, as `certify_par` finds it.
fn found_by_threads(
    rt: &(impl Threads + Sync),
    alloc: Global,
    text: &str,
) -> Result<Finding, Fail> {
    let set = set_of(alloc, text)?;
    let found = certify_par(rt, alloc, &set);
    drop(set);
    Ok(found?)
}

fn is_refused(finding: &Finding, wanted: &Structure) -> bool {
    match finding {
        Finding::Refused(danger) => is_structure(danger, wanted),
        Finding::Robust(_) => false,
    }
}

#[test]
fn dangerous_sets_are_refused(rt: HostRuntime) -> Result<(), Fail> {
    for (text, wanted) in &DANGEROUS {
        let finding = found(rt.alloc(), *text)?;
        assert!(rt; is_refused(&finding, wanted), "{text}");
        drop(finding);
    }
    Ok(())
}

#[test]
fn threads_refuse_dangerous_sets(rt: HostRuntime) -> Result<(), Fail> {
    for (text, wanted) in &DANGEROUS {
        let finding = found_by_threads(&rt, rt.alloc(), *text)?;
        assert!(rt; is_refused(&finding, wanted), "{text}");
        drop(finding);
    }
    Ok(())
}

/// Asserts what is written of a certificate.
fn check_written(rt: &impl Abort, alloc: Global, certificate: &Certificate, wanted: &str) {
    let written = to_json(alloc, certificate).expect(rt, "memory");
    assert!(rt; written.as_str() == wanted, "{written}");
}

/// Asserts that a certificate is found that is written so.
fn check_certified(rt: &impl Abort, alloc: Global, finding: &Finding, wanted: &str) {
    match finding {
        Finding::Robust(certificate) => check_written(rt, alloc, certificate, wanted),
        Finding::Refused(_) => panic!(rt; "no certificate, but {wanted} is wanted"),
    }
}

/// Sets, and their certificates without covers.
const PLAIN: [(&str, &str); 3] = [
    ("", "{\"entries\":[],\"levels\":[],\"version\":1}"),
    (LEDGER, "{\"entries\":[],\"levels\":[2,3,2],\"version\":1}"),
    (
        APART,
        "{\"entries\":[[\"apart\",0,0,0,1,[[\"n\",2],[\"n\",1]]]],\"levels\":[1],\"version\":1}",
    ),
];

#[test]
fn sets_without_covers_are_certified(rt: HostRuntime) -> Result<(), Fail> {
    for (text, certificate) in PLAIN {
        let finding = found(rt.alloc(), text)?;
        check_certified(&rt, rt.alloc(), &finding, certificate);
        drop(finding);
    }
    Ok(())
}

/// Sets, and their certificates with covers.
const COVERED: [(&str, &str); 4] = [
    (KEPT_PAY, KEPT_PAYS),
    (KEPT_REPORT, KEPT_REPORTS),
    (TRANSFER, TRANSFER_CERTIFICATE),
    (
        COLUMNS,
        "{\"entries\":[[\"cover\",0,2,0,3,0,1,[[[\"m\",0],[\"n\",5],[\"t\",1]],[[\"t\",1],\
        [\"n\",5],[\"m\",0]]]]],\"levels\":[1],\"version\":1}",
    ),
];

#[test]
fn covers_are_told_with_their_chains(rt: HostRuntime) -> Result<(), Fail> {
    for (text, certificate) in COVERED {
        let finding = found(rt.alloc(), text)?;
        check_certified(&rt, rt.alloc(), &finding, certificate);
        drop(finding);
    }
    Ok(())
}

#[test]
fn threads_tell_covers_with_their_chains(rt: HostRuntime) -> Result<(), Fail> {
    for (text, certificate) in COVERED {
        let finding = found_by_threads(&rt, rt.alloc(), text)?;
        check_certified(&rt, rt.alloc(), &finding, certificate);
        drop(finding);
    }
    Ok(())
}

/// How many reasons the certificate keeps that is found.
fn reasons_kept(finding: &Finding) -> usize {
    match finding {
        Finding::Robust(certificate) => reason_count(certificate),
        Finding::Refused(_) => 0,
    }
}

/// Sets, and how many reasons their certificates keep: each that differs, and one that stands for
/// those of exposed questions.
const REASONS: [(&str, usize); 3] = [
    // Four covers that differ; the four questions of two writes are exposed.
    (TRANSFER, 5),
    (APART, 2),
    (APART_TWICE, 2),
];

#[test]
fn questions_share_their_reasons(rt: HostRuntime) -> Result<(), Fail> {
    for (text, wanted) in REASONS {
        let finding = found(rt.alloc(), text)?;
        let kept = reasons_kept(&finding);
        drop(finding);
        assert!(rt; kept == wanted, "{kept} reasons of {text}");
    }
    Ok(())
}
