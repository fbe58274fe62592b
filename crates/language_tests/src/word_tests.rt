//! Words for people: names that were meant, places in a row, cells and regions as a statement names
//! them.

use crate::told::is_told;
use example_sets::{LEDGER, set_of};
use fault_words::{
    beginnings_are_those_of_the_grammar, cell_text, known_names, nearest_name, ordinal, point_at,
    program_name, program_names, program_params, region_text, table_names,
};
use prog_check::ProgramSet;
use prog_tree::{Cell, Draft, Region};
use std::alloc::{AllocError, Global};
use std::process::Abort;
use std::test::Fail;

/// Numbers, and what they are as places in a row.
const ORDINALS: [(usize, &str); 7] = [
    (1, "1st"),
    (2, "2nd"),
    (3, "3rd"),
    (11, "11th"),
    (33, "33rd"),
    (112, "112th"),
    (257, "257th"),
];

#[test]
fn numbers_are_places_in_a_row(rt: HostRuntime) -> Result<(), AllocError> {
    for (number, wanted) in &ORDINALS {
        let found = ordinal(rt.alloc(), *number)?;
        is_told(&rt, "ordinal", found.as_str(), wanted);
    }
    Ok(())
}

const NAMES: [&str; 2] = ["stock", "amount"];

/// Words, and what is said of the names then: a word with one letter too few is near its name.
const MEANT: [(&str, &str); 2] = [
    ("amont", "the nearest name is `amount`"),
    ("x", "known are `stock`, `amount`"),
];

#[test]
fn the_nearest_name_is_found(rt: HostRuntime) {
    let found = nearest_name(rt.alloc(), "stok", &NAMES);
    assert!(rt; found == Ok(Some("stock")));
}

#[test]
fn the_name_that_was_meant_is_told(rt: HostRuntime) -> Result<(), AllocError> {
    for (word, wanted) in &MEANT {
        let found = known_names(rt.alloc(), word, &NAMES)?;
        is_told(&rt, word, found.as_str(), wanted);
    }
    Ok(())
}

#[test]
fn a_sentence_points_at_its_place(rt: HostRuntime) -> Result<(), AllocError> {
    let text = b"table t 1;\n  get u[7]\n";
    let told = point_at(rt.alloc(), text, 17, "no table u\x1b")?;
    let wanted = "line 2, column 7: no table u?\n    get u[7]\n        ^\n";
    is_told(&rt, "point_at", told.as_str(), wanted);
    Ok(())
}

/// Cells, and what a statement of the ledger set names them.
const CELLS: [(Cell, &str); 2] = [
    (
        Cell {
            table: 0,
            first: 7,
            second: 0,
        },
        "`closed[7]`",
    ),
    (
        Cell {
            table: 1,
            first: 7,
            second: -3,
        },
        "`entry[7, -3]`",
    ),
];

fn check_cells(rt: &impl Abort, alloc: Global, set: &ProgramSet) -> Result<(), AllocError> {
    for (cell, wanted) in &CELLS {
        let found = cell_text(alloc, set, *cell)?;
        is_told(rt, "cell", found.as_str(), wanted);
    }
    Ok(())
}

/// The rows of a day.
const DAY: Region = Region {
    table: 1,
    first_low: 7,
    first_high: 7,
    second_low: i64::MIN,
    second_high: 3,
};

fn check_region(rt: &impl Abort, alloc: Global, set: &ProgramSet) -> Result<(), AllocError> {
    let found = region_text(alloc, set, DAY)?;
    is_told(rt, "region", found.as_str(), "`entry[7, least..3]`");
    Ok(())
}

/// How the tables are called.
fn check_tables(rt: &impl Abort, alloc: Global, draft: &Draft) -> Result<(), AllocError> {
    let names = table_names(alloc, draft)?;
    assert!(rt; names.as_slice() == ["closed", "entry"].as_slice());
    drop(names);
    Ok(())
}

/// How the programs are called.
fn check_programs(rt: &impl Abort, alloc: Global, draft: &Draft) -> Result<(), AllocError> {
    let names = program_names(alloc, draft)?;
    assert!(rt; names.as_slice() == ["Post", "Close", "Total"].as_slice());
    drop(names);
    Ok(())
}

/// How the tables and the programs are called, and the parameters of the second.
fn check_names(rt: &impl Abort, alloc: Global, set: &ProgramSet) -> Result<(), AllocError> {
    check_tables(rt, alloc, set.draft())?;
    check_programs(rt, alloc, set.draft())?;
    assert!(rt; program_name(set, 1) == "Close");
    assert!(rt; program_params(set.draft(), 1).len() == 1);
    Ok(())
}

#[test]
fn cells_are_named_as_statements_name_them(rt: HostRuntime) -> Result<(), Fail> {
    let set = set_of(rt.alloc(), LEDGER)?;
    let cells = check_cells(&rt, rt.alloc(), &set);
    let region = check_region(&rt, rt.alloc(), &set);
    let names = check_names(&rt, rt.alloc(), &set);
    drop(set);
    cells?;
    region?;
    Ok(names?)
}

#[test]
fn the_law_of_beginnings_is_called() {
    beginnings_are_those_of_the_grammar();
}
