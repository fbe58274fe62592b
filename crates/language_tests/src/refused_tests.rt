//! Calls that are made again where memory was refused. `tests/refused-calls` runs these tests with
//! each request refused in turn, so that each call is refused each of its requests; by themselves
//! they refuse none.

use crate::told::is_so;
use example_sets::{KEPT_PAY, SMALL_BANK, checked_when_asked_again, parsed_when_asked_again};
use prog_check::{CheckFault, Place};
use prog_text::{TextFault, print};
use prog_tree::Draft;
use std::alloc::{AllocError, Global};
use std::process::Abort;
use std::test::Fail;

// What `print` answers, asked again where memory was refused.
fn printed(alloc: Global, draft: &Draft) -> Result<Vec<u8>, AllocError> {
    match print(alloc, draft) {
        Err(AllocError) => print(alloc, draft),
        answer => answer,
    }
}

// What is printed of a text that is read and checked.
fn printed_of(alloc: Global, text: &str) -> Result<Vec<u8>, Fail> {
    let set = checked_when_asked_again(alloc, text)??;
    let text = printed(alloc, set.draft());
    drop(set);
    Ok(text?)
}

#[test]
fn texts_are_read_when_asked_again(rt: HostRuntime) -> Result<(), Fail> {
    for text in &[SMALL_BANK, KEPT_PAY] {
        let printed = printed_of(rt.alloc(), text)?;
        is_so(&rt, text, printed.as_slice() == text.as_bytes());
    }
    Ok(())
}

fn check_text_fault(rt: &impl Abort, alloc: Global) {
    let found = parsed_when_asked_again(alloc, "program P( {").err();
    assert!(rt; found == Some(TextFault::UnexpectedToken { place: 11 }));
}

fn check_set_fault(rt: &impl Abort, alloc: Global) -> Result<(), Fail> {
    let found = checked_when_asked_again(alloc, "table t 1; table t 2;")?.err();
    let place = Place::Table { table: 1 };
    assert!(rt; found == Some(CheckFault::DuplicateTable { place }));
    Ok(())
}

#[test]
fn faults_are_told_when_asked_again(rt: HostRuntime) -> Result<(), Fail> {
    check_text_fault(&rt, rt.alloc());
    check_set_fault(&rt, rt.alloc())
}
