//! Checked sets: faults with their places, and the numbers of names.

use crate::told::{is_so, is_so_at};
use example_sets::{LEDGER, set_of};
use prog_check::{CheckFault, Place, ProgramSet, check, table_use};
use prog_text::parse;
use prog_tree::{Arity, Stmt};
use std::alloc::Global;
use std::process::Abort;
use std::test::Fail;

// The first fault of a text that is read.
fn fault_of(alloc: Global, text: &str) -> Result<Option<CheckFault>, Fail> {
    let draft = parse(alloc, text.as_bytes())?;
    Ok(check(alloc, draft).err())
}

const SECOND_TABLE: Place = Place::Table { table: 1 };

const FIRST_STATEMENT: Place = Place::Statement {
    program: 0,
    statement: 0,
};

const SECOND_STATEMENT: Place = Place::Statement {
    program: 0,
    statement: 1,
};

const THIRD_STATEMENT: Place = Place::Statement {
    program: 0,
    statement: 2,
};

/// Texts and their first faults.
const FAULTS: [(&str, CheckFault); 5] = [
    (
        "table t 1; table t 2;",
        CheckFault::DuplicateTable {
            place: SECOND_TABLE,
        },
    ),
    (
        "program P() { put u[1] = 2; }",
        CheckFault::UnknownTable {
            place: FIRST_STATEMENT,
        },
    ),
    (
        "table t 1; program P() { reply 1; each k, k in t[1..3] { } }",
        CheckFault::NameTaken {
            place: SECOND_STATEMENT,
        },
    ),
    (
        "table t 1; program P() { each k, v in t[1..3] { } reply v; }",
        CheckFault::UnknownName {
            place: SECOND_STATEMENT,
        },
    ),
    (
        "table t 1; program P() { each k, v in t[1..3] { abort; reply v; } }",
        CheckFault::AfterAbort {
            place: THIRD_STATEMENT,
        },
    ),
];

/// Six branches make 64 ways, but none of a program where they stand in the block of an `each`.
const BRANCHES: &str = "\
table t 1;
program P(a) {
  each k, v in t[1..3] {
    if a < 0 { } if a < 0 { } if a < 0 { } if a < 0 { } if a < 0 { } if a < 0 { }
  }
}
";

#[test]
fn branches_of_an_each_add_no_paths(rt: HostRuntime) -> Result<(), Fail> {
    let found = fault_of(rt.alloc(), BRANCHES)?;
    assert!(rt; found == None);
    Ok(())
}

#[test]
fn faults_have_their_place(rt: HostRuntime) -> Result<(), Fail> {
    for (text, fault) in &FAULTS {
        let found = fault_of(rt.alloc(), text)?;
        is_so(&rt, text, found == Some(*fault));
    }
    Ok(())
}

/// Names with the numbers of their tables and of their programs.
const NUMBERS: [(&str, Option<usize>, Option<usize>); 5] = [
    ("closed", Some(0), None),
    ("entry", Some(1), None),
    ("Post", None, Some(0)),
    ("Total", None, Some(2)),
    ("d", None, None),
];

fn compare(rt: &impl Abort, set: &ProgramSet) {
    for &(name, table, program) in NUMBERS.iter() {
        let numbers = (set.table_number(name), set.program_number(name));
        is_so(rt, name, numbers == (table, program));
    }
    assert!(rt; set.draft().programs.len() == 3);
}

// A copy of the set of a text.
fn copy_of(alloc: Global, text: &str) -> Result<ProgramSet, Fail> {
    let set = set_of(alloc, text)?;
    let copy = set.copy();
    drop(set);
    Ok(copy?)
}

#[test]
fn a_set_finds_its_names(rt: HostRuntime) -> Result<(), Fail> {
    let copy = copy_of(rt.alloc(), LEDGER)?;
    compare(&rt, &copy);
    drop(copy);
    Ok(())
}

/// Statements that use a table by a key and by a range, an `each`, and two that use none.
const USERS: &str = "\
table t 1;
table u 2;
program P(a) {
  let x = get t[a] else 0;
  let n = count u[a, 1..2];
  each k, v in t[1..3] { }
  let y = x + n;
  reply y;
}
";

/// Which tables they use, and for how many columns.
const USED: [Option<(&str, Arity)>; 5] = [
    Some(("t", Arity::One)),
    Some(("u", Arity::Two)),
    Some(("t", Arity::One)),
    None,
    None,
];

fn used(stmt: &Stmt) -> Option<(&str, Arity)> {
    match table_use(stmt) {
        Some((name, arity)) => Some((name.as_str(), arity)),
        None => None,
    }
}

fn compare_used(rt: &impl Abort, set: &ProgramSet) {
    let program = set.draft().programs.get(0).expect(rt, "a program");
    for (number, wanted) in USED.iter().enumerate() {
        let stmt = program.body.stmts.get(number).expect(rt, "a statement");
        is_so_at(rt, number, used(stmt) == *wanted);
    }
}

#[test]
fn statements_use_their_tables(rt: HostRuntime) -> Result<(), Fail> {
    let set = set_of(rt.alloc(), USERS)?;
    compare_used(&rt, &set);
    drop(set);
    Ok(())
}
