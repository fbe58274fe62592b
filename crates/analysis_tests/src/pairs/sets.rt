//! The tables of sets, and texts of sets that these tests alone take.

use crate::examples::change_single_cells;
use conflict_pairs::{ClassTable, PairTable, class_table, class_table_par, pairs, pairs_par};
use prog_paths::Path;
use std::alloc::Global;
use std::process::Abort;
use std::thread::Threads;

/// The table of all questions of some paths.
pub fn table_of<'a>(rt: &impl Abort, alloc: Global, paths: &'a [Path]) -> PairTable<'a> {
    assert!(rt; change_single_cells(paths));
    pairs(alloc, paths).expect(rt, "a table")
}

/// The same, as `pairs_par` makes it.
pub fn table_of_threads<'a>(
    rt: &(impl Abort + Threads + Sync),
    alloc: Global,
    paths: &'a [Path],
) -> PairTable<'a> {
    assert!(rt; change_single_cells(paths));
    pairs_par(rt, alloc, paths).expect(rt, "a table")
}

/// What is told of all questions of some paths, class by class.
pub fn class_table_of<'a>(rt: &impl Abort, alloc: Global, paths: &'a [Path]) -> ClassTable<'a> {
    assert!(rt; change_single_cells(paths));
    class_table(alloc, paths).expect(rt, "a table")
}

/// The same, as `class_table_par` makes it.
pub fn class_table_of_threads<'a>(
    rt: &(impl Abort + Threads + Sync),
    alloc: Global,
    paths: &'a [Path],
) -> ClassTable<'a> {
    assert!(rt; change_single_cells(paths));
    class_table_par(rt, alloc, paths).expect(rt, "a table")
}

/// A read and a write of one cell that stand in a body.
pub const IN_A_BODY: &str = "\
table s 1;
table t 1;
program Move(a, b) { each k, x in s[1..3] { let y = get t[a] else 0; put t[a] = x + y; } }
";

/// Two programs that look at different cells from those that a third puts.
pub const NUMBERS: &str = "\
table t 1;
program One() { let x = get t[1] else 0; }
program Range() { let n = count t[7..5]; }
program Near() { let n = count t[3..5]; }
program Two() { put t[2] = 0; }
program First(a) { put t[a] = 0; }
program Third(a, b, c) { put t[c] = 0; }
";
