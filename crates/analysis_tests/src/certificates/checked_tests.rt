//! What the checker says of certificates. The first set has two programs: one looks at cell 1, the
//! other puts cell 2. Its questions are that the look may miss the put, and that the put may meet
//! itself.

use crate::examples::{KEPT_PAYS, paths_of};
use example_sets::{KEPT_PAY, set_of};
use prog_check::ProgramSet;
use prog_paths::Path;
use robust_cert::{CertFault, Certificate, RobustSet, body_size, from_json, verify};
use std::alloc::Global;
use std::process::Abort;
use std::test::Fail;

const LOOK_AND_PUT: &str = "\
table t 1;
program Look() { let x = get t[1] else 0; }
program Put() { put t[2] = 5; }
";

/// How many programs the robust set has, or the fault of a certificate.
pub fn told(checked: Result<RobustSet, (ProgramSet, CertFault)>) -> Result<usize, CertFault> {
    match checked {
        Ok(robust) => {
            let programs = robust.set().draft().programs.len();
            drop(robust);
            Ok(programs)
        }
        Err((set, fault)) => {
            drop(set);
            Err(fault)
        }
    }
}

fn said(
    alloc: Global,
    programs: &str,
    certificate: &Certificate,
) -> Result<Result<usize, CertFault>, Fail> {
    let set = set_of(alloc, programs)?;
    Ok(told(verify(alloc, set, certificate)))
}

/// What the checker says of the text of a certificate for a set.
fn said_of(alloc: Global, programs: &str, text: &str) -> Result<Result<usize, CertFault>, Fail> {
    let certificate = from_json(alloc, text.as_bytes())?;
    let said = said(alloc, programs, &certificate);
    drop(certificate);
    said
}

/// That the look and the put never meet, by chains that fall, that rise, and that go by more than
/// facts; and that the look never meets itself.
const APART: [(&str, Result<usize, CertFault>); 4] = [
    (
        "{\"entries\":[[\"apart\",0,0,1,0,[[\"n\",2],[\"n\",1]]]],\"levels\":[1,1],\"version\":1}",
        Ok(2),
    ),
    (
        "{\"entries\":[[\"apart\",0,0,1,0,[[\"n\",1],[\"n\",2]]]],\"levels\":[1,1],\"version\":1}",
        Err(CertFault::BadChain(0)),
    ),
    (
        "{\"entries\":[[\"apart\",0,0,1,0,[[\"n\",2],[\"n\",0],[\"n\",1]]]],\
        \"levels\":[1,1],\"version\":1}",
        Err(CertFault::BadChain(0)),
    ),
    (
        "{\"entries\":[[\"apart\",0,0,0,0,[[\"n\",2],[\"n\",1]]]],\"levels\":[1,1],\"version\":1}",
        Err(CertFault::NoSuchEntry(0)),
    ),
];

/// That the look covers the put.
const COVER: &str = "{\"entries\":[[\"cover\",0,0,1,0,0,0,[]]],\"levels\":[1,1],\"version\":1}";

/// Asserts what the checker says of the text of a certificate for a set.
fn check(
    rt: &impl Abort,
    alloc: Global,
    programs: &str,
    text: &str,
    want: Result<usize, CertFault>,
) -> Result<(), Fail> {
    let said = said_of(alloc, programs, text)?;
    assert!(rt; said == want, "{text}");
    Ok(())
}

#[test]
fn apart_needs_a_chain_that_falls(rt: HostRuntime) -> Result<(), Fail> {
    for &(text, want) in APART.iter() {
        check(&rt, rt.alloc(), LOOK_AND_PUT, text, want)?;
    }
    Ok(())
}

#[test]
fn a_look_covers_nothing(rt: HostRuntime) -> Result<(), Fail> {
    let fault = Err(CertFault::BadCover(0));
    check(&rt, rt.alloc(), LOOK_AND_PUT, COVER, fault)
}

/// Certificates for a program that keeps a cell, lists rows and puts each: that the two keeps
/// cover, or the two puts, and how many accesses stand in the body.
const PAYS: [(&str, Result<usize, CertFault>); 6] = [
    (KEPT_PAYS, Ok(1)),
    (
        "{\"bodies\":[1],\"entries\":[[\"cover\",0,1,0,2,2,2,[[[\"u\",0],[\"v\",0]],\
        [[\"v\",0],[\"u\",0]]]]],\"levels\":[1],\"version\":2}",
        Err(CertFault::BadCover(0)),
    ),
    (
        "{\"bodies\":[1],\"entries\":[[\"cover\",0,1,0,2,0,2,[[[\"n\",0]],[[\"n\",0]]]]],\
        \"levels\":[1],\"version\":2}",
        Err(CertFault::BadCover(0)),
    ),
    (
        "{\"bodies\":[0],\"entries\":[[\"cover\",0,1,0,2,0,0,[[[\"n\",0]],[[\"n\",0]]]]],\
        \"levels\":[1],\"version\":2}",
        Err(CertFault::PathCount),
    ),
    (
        "{\"bodies\":[1,0],\"entries\":[[\"cover\",0,1,0,2,0,0,[[[\"n\",0]],[[\"n\",0]]]]],\
        \"levels\":[1],\"version\":2}",
        Err(CertFault::PathCount),
    ),
    (
        "{\"entries\":[[\"cover\",0,1,0,2,0,0,[[[\"n\",0]],[[\"n\",0]]]]],\
        \"levels\":[1],\"version\":1}",
        Err(CertFault::PathCount),
    ),
];

#[test]
fn what_stands_in_a_body_covers_nothing(rt: HostRuntime) -> Result<(), Fail> {
    for &(text, want) in PAYS.iter() {
        check(&rt, rt.alloc(), KEPT_PAY, text, want)?;
    }
    Ok(())
}

/// Two programs: the first lists rows, with two looks in the body; the second puts.
const LOOKS: &str = "\
table t 1;
table s 1;
program P(a) {
  each k, v in s[1..3] { if v < 0 { let x = get t[4] else 0; abort; } else { lacks t[5]; } }
  put t[6] = a;
}
program Q(a) { put t[7] = a; }
";

/// Asserts how many accesses of the first path stand in a body, and how many of the last.
fn check_sizes(rt: &impl Abort, paths: &[Path], wanted: (usize, usize)) {
    let first = paths.first().expect(rt, "a path is there");
    let last = paths.last().expect(rt, "a path is there");
    assert!(rt; (body_size(first), body_size(last)) == wanted);
}

#[test]
fn accesses_that_stand_in_a_body_are_counted(rt: HostRuntime) -> Result<(), Fail> {
    for (text, wanted) in [(LOOKS, (2, 0)), (KEPT_PAY, (1, 1))] {
        let paths = paths_of(rt.alloc(), text)?;
        check_sizes(&rt, &paths, wanted);
        drop(paths);
    }
    Ok(())
}
