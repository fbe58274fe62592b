//! Lists of records.

use crate::book::audits::Record;
use example_sets::set_of;
use history_book::HistoryRow;
use prog_check::ProgramSet;
use si_engine::{Bytes, PartFault, Records, read_records};
use std::alloc::Global;
use std::process::Abort;
use std::test::Fail;

const SET: &str = "table t 1;
program Look(k) { let x = get t[k] else -1; reply x; }
program at(k) { reply k; }
";

const RECORDS: &[u8] = b"# history\r

row  t 1 =  -4\r
record  Look 1  at 18446744073709551615   gives -4
record at 5 at -0 gives 5 -6
record Look at 007 gives";

const READ: [Record; 3] = [
    (0, &[1], u64::MAX, &[-4]),
    (1, &[5], 0, &[5, -6]),
    (0, &[], 7, &[]),
];

fn is_read(row: &HistoryRow, wanted: &Record) -> bool {
    let (program, args, start, replies) = *wanted;
    row.program == program
        && row.args.as_slice() == args
        && row.start == start
        && row.replies.as_slice() == replies
}

fn check_rows(rt: &impl Abort, rows: &[HistoryRow]) {
    assert!(rt; rows.len() == READ.len());
    for (row, wanted) in rows.iter().zip(&READ) {
        assert!(rt; is_read(row, wanted));
    }
}

fn read(alloc: Global, set: &ProgramSet, bytes: &[u8]) -> Result<Records, PartFault> {
    read_records(alloc, set, &mut Bytes::new(bytes))
}

#[test]
fn records_are_read(rt: HostRuntime) -> Result<(), Fail> {
    let set = set_of(rt.alloc(), SET)?;
    let found = read(rt.alloc(), &set, RECORDS).expect(&rt, "records");
    drop(set);
    assert!(rt; found.rows.len() == 1);
    check_rows(&rt, found.items.as_slice());
    drop(found);
    Ok(())
}

const FAULTS: &[(&str, &str)] = &[
    ("record Look 1 at 18446744073709551616 gives", "S1 line 1"),
    ("record at 0 gives", "S1 line 1"),
    ("record Look 1 at 0", "S1 line 1"),
    ("record Look 1 gives -1", "S1 line 1"),
    ("record Look 1 at -1 gives", "S1 line 1"),
    ("#\nbegin Look 1", "S1 line 2"),
    ("record Nope 1 at 0 gives", "S2 line 1"),
    ("row t 1 2 = 2", "S3 line 1"),
    ("row t 1 = 2\nrow t 1 = 2", "S5 line 2"),
    ("record Look 1 at 0 gives 2\nrow t 1 = 2", "S4 line 2"),
];

fn check_fault(rt: &impl Abort, alloc: Global, set: &ProgramSet, part: &str, wanted: &str) {
    let Some(PartFault::Line(fault)) = read(alloc, set, part.as_bytes()).err() else {
        panic!(rt; "no fault of a line: {part}")
    };
    let told = fault.to_string(alloc).expect(rt, "memory");
    assert!(rt; told.as_str() == wanted, "{part}");
}

fn check_faults(rt: &impl Abort, alloc: Global, set: &ProgramSet, faults: &[(&str, &str)]) {
    for (part, wanted) in faults {
        check_fault(rt, alloc, set, part, wanted);
    }
}

#[test]
fn faults_of_records_are_told(rt: HostRuntime) -> Result<(), Fail> {
    let set = set_of(rt.alloc(), SET)?;
    check_faults(&rt, rt.alloc(), &set, FAULTS);
    drop(set);
    Ok(())
}
