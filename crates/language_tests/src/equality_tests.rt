//! When programs, tables and looks are the same, and the laws that stand as functions.

use crate::told::is_so;
use example_sets::set_of;
use prog_check::{ProgramSet, soundness};
use prog_tree::{
    Cell, Look, Region, evaluations_depend_on_looks, evaluations_write_i64, i64_is_tested,
    same_bytes, same_tables, table_states_stay_i64, table_states_stay_in_order,
};
use std::alloc::Global;
use std::process::Abort;
use std::test::Fail;

const SET: &str = "table t 1; program P(k, v) { put t[k] = v; reply v; }";

// Whether two sets have the same tables, and whether they have the same first program.
fn are_same(set: &ProgramSet, other: &ProgramSet) -> (bool, bool) {
    let (draft, other) = (set.draft(), other.draft());
    let tables = same_tables(&draft.tables, &other.tables);
    let program = match (draft.programs.first(), other.programs.first()) {
        (Some(program), Some(second)) => program.is_same(second),
        _ => false,
    };
    (tables, program)
}

/// Texts, whether their sets have the tables of the first text, and whether they have its program.
const OTHERS: [(&str, (bool, bool)); 3] = [
    (
        "table t 1;\nprogram P(k, v) {\n  put t[k] = v;\n  reply v;\n}\n",
        (true, true),
    ),
    (
        "table t 1; program P(k, v) { put t[k] = v; reply k; }",
        (true, false),
    ),
    (
        "table t 1 grow; program P(k, v) { insert t[k] = v; reply v; }",
        (false, false),
    ),
];

// Whether the set of another text is the same in tables and program.
fn is_same_as(alloc: Global, set: &ProgramSet, text: &str) -> Result<(bool, bool), Fail> {
    let other = set_of(alloc, text)?;
    let same = are_same(set, &other);
    drop(other);
    Ok(same)
}

fn compare(rt: &impl Abort, alloc: Global, set: &ProgramSet) -> Result<(), Fail> {
    for (text, same) in &OTHERS {
        let found = is_same_as(alloc, set, text)?;
        is_so(rt, text, found == *same);
    }
    Ok(())
}

#[test]
fn sets_are_the_same_by_their_trees(rt: HostRuntime) -> Result<(), Fail> {
    let set = set_of(rt.alloc(), SET)?;
    let compared = compare(&rt, rt.alloc(), &set);
    drop(set);
    compared
}

fn look(first: i64, held: Option<i64>) -> Look {
    let cell = Cell {
        table: 0,
        first,
        second: 0,
    };
    Look::One(cell, held)
}

/// Whether a look is the same as one at cell 1 that found 5.
fn is_that_look(look_at: &Look) -> bool {
    let wanted = look(1, Some(5));
    wanted.is_same(look_at)
}

#[test]
fn looks_are_the_same_by_cell_and_value(rt: HostRuntime) {
    let same = look(1, Some(5));
    assert!(rt; is_that_look(&same));
    let others = [look(2, Some(5)), look(1, Some(0)), look(1, None)];
    for other in &others {
        assert!(rt; !is_that_look(other));
    }
}

/// The cells of `e[1..3, 2..4]`.
const REGION: Region = Region {
    table: 0,
    first_low: 1,
    first_high: 3,
    second_low: 2,
    second_high: 4,
};

/// Whether regions are the same that have another table or another end.
fn are_others_the_same() -> [bool; 5] {
    let table = Region { table: 1, ..REGION };
    let first_low = Region {
        first_low: 0,
        ..REGION
    };
    let first_high = Region {
        first_high: 4,
        ..REGION
    };
    let second_low = Region {
        second_low: 3,
        ..REGION
    };
    let second_high = Region {
        second_high: 3,
        ..REGION
    };
    [
        REGION.is_same(&table),
        REGION.is_same(&first_low),
        REGION.is_same(&first_high),
        REGION.is_same(&second_low),
        REGION.is_same(&second_high),
    ]
}

#[test]
fn regions_are_the_same_by_table_and_ends(rt: HostRuntime) {
    assert!(rt; REGION.is_same(&REGION));
    assert!(rt; are_others_the_same() == [false; 5]);
}

#[test]
fn words_are_the_same_by_their_bytes(rt: HostRuntime) {
    assert!(rt; same_bytes(b"total", b"total"));
    for other in &["", "tota", "totals", "Total"] {
        is_so(&rt, other, !same_bytes(b"total", other.as_bytes()));
    }
}

#[test]
fn laws_are_called() {
    evaluations_depend_on_looks();
    table_states_stay_in_order();
    table_states_stay_i64();
    evaluations_write_i64();
    i64_is_tested();
    soundness();
}
