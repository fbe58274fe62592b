//! The readers of lines, which scripts, records and lists of jobs share.

use example_sets::set_of;
use prog_check::ProgramSet;
use si_engine::{
    Bytes, LineWord, Records, cut, line_words, number, numbers, program_number, read_lines,
    read_part, read_script, unsigned, without_return,
};
use std::alloc::Global;
use std::process::Abort;
use std::test::Fail;

const SET: &str = "table s 1;
table t 2;
program Look(k) { reply k; }
program Find(k) { reply k; }
";

fn check_numbers(rt: &impl Abort, alloc: Global, line: &[u8], wanted: &[i64]) {
    let words = line_words(alloc, line).expect(rt, "memory");
    let found = numbers(alloc, words.as_slice()).expect(rt, "memory");
    assert!(rt; found.expect(rt, "numbers").as_slice() == wanted);
}

fn check_words(rt: &impl Abort, words: &[LineWord<'_>]) {
    let [row, table, key] = words else {
        panic!(rt; "other words")
    };
    assert!(rt; row.as_bytes() == b"row".as_slice() && key.as_bytes() == b"7".as_slice());
    assert!(rt; table.as_bytes() == LineWord::new(b"t").as_bytes());
}

#[test]
fn lines_are_words(rt: HostRuntime) {
    let words = line_words(rt.alloc(), b"  row  t 7 ").expect(&rt, "memory");
    check_words(&rt, words.as_slice());
    drop(words);
}

#[test]
fn numbers_are_read(rt: HostRuntime) {
    check_numbers(&rt, rt.alloc(), b"1 -2", &[1, -2]);
    assert!(rt; number(b"-007") == Some(-7) && number(b"+7") == None);
    assert!(rt; unsigned(b"18446744073709551615") == Some(u64::MAX));
}

#[test]
fn lines_are_cut(rt: HostRuntime) {
    let (first, rest) = cut(b"step 0\r\ncommit 0", b'\n');
    assert!(rt; without_return(first) == b"step 0".as_slice());
    let (last, behind) = cut(rest, b'\n');
    assert!(rt; last == b"commit 0".as_slice() && behind.is_empty());
}

const PART: &[u8] = b"# rows\nrow s 1 = 2\nrecord Look 1 at 0 gives 1\n";

// How many rows and records a part has.
fn counts(rt: &impl Abort, alloc: Global, set: &ProgramSet) -> (usize, usize) {
    let found = read_part::<Records, _>(alloc, set, &mut Bytes::new(PART)).expect(rt, "a part");
    let counts = (found.rows.len(), found.items.len());
    drop(found);
    counts
}

// The same of a part at hand.
fn counts_at_hand(rt: &impl Abort, alloc: Global, set: &ProgramSet) -> (usize, usize) {
    let found = read_lines::<Records>(alloc, set, PART).expect(rt, "a part");
    let counts = (found.rows.len(), found.items.len());
    drop(found);
    counts
}

const SCRIPT: &[u8] = b"row s 1 = 2\nbegin Look 1\n# once more\nstep 0 2\ncommit 0\n";

// How many rows and events a script has.
fn script_counts(rt: &impl Abort, alloc: Global, set: &ProgramSet) -> (usize, usize) {
    let found = read_script(alloc, set, &mut Bytes::new(SCRIPT)).expect(rt, "a script");
    let counts = (found.rows.len(), found.events.len());
    drop(found);
    counts
}

#[test]
fn names_and_parts_are_read(rt: HostRuntime) -> Result<(), Fail> {
    let set = set_of(rt.alloc(), SET)?;
    assert!(rt; program_number(&set, b"Find") == Some(1));
    assert!(rt; counts(&rt, rt.alloc(), &set) == (1, 1));
    assert!(rt; counts_at_hand(&rt, rt.alloc(), &set) == (1, 1));
    assert!(rt; script_counts(&rt, rt.alloc(), &set) == (1, 4));
    drop(set);
    Ok(())
}
