//! The committing paths of sets.

use crate::examples::{paths_of, wide_paths};
use crate::paths::shown::{shown, shown_path};
use example_sets::{KEPT_PAY, LEDGER, MOVE, REPORT, SMALL_BANK, TRANSFER, set_of};
use prog_paths::{Path, count_statements};
use prog_tree::Draft;
use std::alloc::{AllocError, Global};
use std::process::Abort;
use std::test::Fail;

/// Asserts what the paths of a text are.
fn check(rt: &impl Abort, alloc: Global, text: &str, wanted: &str) -> Result<(), Fail> {
    let paths = paths_of(alloc, text)?;
    let shown = shown(alloc, &paths);
    drop(paths);
    let shown = shown?;
    assert!(rt; shown.as_str() == wanted, "{shown}");
    Ok(())
}

#[test]
fn small_bank_has_six_paths(rt: HostRuntime) -> Result<(), Fail> {
    let six = "\
0 []: Reads 0[Param(0)] 0; Reads 1[Param(0)] 1;
1 [false]: Reads 1[Param(0)] 2; Writes 1[Param(0)] 3;
2 [false]: Reads 0[Param(0)] 0; Writes 0[Param(0)] 3;
3 []: Reads 0[Param(0)] 0; Reads 1[Param(0)] 1; Writes 0[Param(0)] 2; Writes 1[Param(0)] 3; \
Reads 1[Param(1)] 4; Writes 1[Param(1)] 5;
4 [true]: Reads 0[Param(0)] 0; Reads 1[Param(0)] 1; Writes 1[Param(0)] 3;
4 [false]: Reads 0[Param(0)] 0; Reads 1[Param(0)] 1; Writes 1[Param(0)] 4;
";
    check(&rt, rt.alloc(), SMALL_BANK, six)
}

#[test]
fn a_grow_table_is_added_to_seen_and_lacking(rt: HostRuntime) -> Result<(), Fail> {
    let ledger = "\
0 []: Lacks 0[Param(0)] 0; Adds 1[Param(0), Param(1)] 1;
1 []: Adds 0[Param(0)] 0;
2 []: Reads 1[Param(0), Literal(-9223372036854775808)..Literal(9223372036854775807)] 0;
";
    let report = "\
0 []: Lacks 0[Param(0)] 0; Adds 1[Param(0), Param(1)] 1;
1 []: Adds 0[Param(0)] 0;
2 []: Sees 0[Param(0)] 0; \
Reads 1[Param(0), Literal(-9223372036854775808)..Literal(9223372036854775807)] 1;
";
    check(&rt, rt.alloc(), LEDGER, ledger)?;
    check(&rt, rt.alloc(), REPORT, report)
}

#[test]
fn a_computed_key_is_an_unknown(rt: HostRuntime) -> Result<(), Fail> {
    let transfer = "\
0 []: Reads 0[Param(0)] 0; Writes 0[Param(0)] 1; Reads 0[Param(1)] 2; Writes 0[Param(1)] 3;
";
    let one = "0 []: Reads 0[Unknown(0)] 0; Writes 0[Param(1)] 1;\n";
    check(&rt, rt.alloc(), TRANSFER, transfer)?;
    check(&rt, rt.alloc(), MOVE, one)
}

/// Bodies: both blocks of a branch, what stands before an `abort;`, and a body in a body. What stands
/// behind them has an unknown of its own.
const BODIES: &str = "\
table t 1;
table s 1;
program Both(a) {
  each k, v in s[a..3] {
    if v < 0 { let x = get t[4] else 0; abort; } else { lacks t[k]; }
    each q, w in t[k..v] { insert t[q + 1] = w; delete t[q]; }
  }
  put t[a + 1] = a;
}
";

#[test]
fn a_body_passes_all_its_statements(rt: HostRuntime) -> Result<(), Fail> {
    let pay = "0 []: Keeps 1[Literal(0)] 0; Reads 0[Literal(1)..Literal(3)] 1; \
Writes 0[Unknown(0)] 2 in a body;
";
    let both = "\
0 []: Reads 1[Param(0)..Literal(3)] 0; Reads 0[Literal(4)] 2 in a body; \
Reads 0[Unknown(0)] 4 in a body; Reads 0[Unknown(1)..Unknown(2)] 5 in a body; \
Reads 0[Unknown(3)] 6 in a body; Writes 0[Unknown(3)] 6 in a body; \
Writes 0[Unknown(4)] 7 in a body; Writes 0[Unknown(5)] 8;
";
    check(&rt, rt.alloc(), KEPT_PAY, pay)?;
    check(&rt, rt.alloc(), BODIES, both)
}

/// How many statements the first program of a draft has.
fn first_count(draft: &Draft) -> Option<usize> {
    let program = draft.programs.first()?;
    Some(count_statements(&program.body))
}

/// The same of the draft of a text.
fn count_of(alloc: Global, text: &str) -> Result<Option<usize>, Fail> {
    let set = set_of(alloc, text)?;
    let count = first_count(set.draft());
    drop(set);
    Ok(count)
}

#[test]
fn statements_are_counted_with_those_of_their_blocks(rt: HostRuntime) -> Result<(), Fail> {
    assert!(rt; count_of(rt.alloc(), KEPT_PAY)? == Some(3));
    assert!(rt; count_of(rt.alloc(), BODIES)? == Some(9));
    Ok(())
}

/// The accesses of a wide path: each pair stands behind the five branches and the pairs before it.
const WIDE_ACCESSES: &str = "\
Reads 0[Param(0)] 5; Writes 0[Param(0)] 6; Reads 0[Param(0)] 7; Writes 0[Param(0)] 8; \
Reads 0[Param(0)] 9; Writes 0[Param(0)] 10; Reads 0[Param(0)] 11; Writes 0[Param(0)] 12; \
Reads 0[Param(0)] 13; Writes 0[Param(0)] 14; Reads 0[Param(0)] 15; Writes 0[Param(0)] 16; \
Reads 0[Param(0)] 17; Writes 0[Param(0)] 18; Reads 0[Param(0)] 19; Writes 0[Param(0)] 20; \
Reads 0[Param(0)] 21; Writes 0[Param(0)] 22; Reads 0[Param(0)] 23; Writes 0[Param(0)] 24; \
Reads 0[Param(0)] 25; Writes 0[Param(0)] 26; Reads 0[Param(0)] 27; Writes 0[Param(0)] 28;";

/// Whether a path is shown with this start, before the accesses of a wide path.
fn is_wide(alloc: Global, path: &Path, start: &str) -> Result<bool, AllocError> {
    let shown = shown_path(alloc, path)?;
    Ok(shown.as_str().strip_prefix(start) == Some(WIDE_ACCESSES))
}

/// Some wide paths by their numbers, and how they start.
const WIDE_PATHS: [(usize, &str); 4] = [
    (0, "0 [true, true, true, true, true]: "),
    (33, "1 [true, true, true, true, false]: "),
    (496, "15 [false, true, true, true, true]: "),
    (511, "15 [false, false, false, false, false]: "),
];

/// Asserts what the wide paths are.
fn check_wide(rt: &impl Abort, alloc: Global, paths: &[Path]) -> Result<(), AllocError> {
    assert!(rt; paths.len() == 512);
    for (number, start) in WIDE_PATHS {
        let path = paths.get(number).expect(rt, "the path is there");
        assert!(rt; is_wide(alloc, path, start)?, "{number}");
    }
    Ok(())
}

#[test]
fn sixteen_programs_have_thirty_two_paths_each(rt: HostRuntime) -> Result<(), Fail> {
    let paths = wide_paths(rt.alloc(), 12)?;
    let checked = check_wide(&rt, rt.alloc(), &paths);
    drop(paths);
    Ok(checked?)
}
