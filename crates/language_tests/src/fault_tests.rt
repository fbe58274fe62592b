//! The texts of faults of texts and of sets.

use crate::told::is_told;
use prog_check::{CheckFault, Place};
use prog_text::TextFault;
use std::alloc::AllocError;

/// Faults of texts and their own texts.
const TEXT_FAULTS: [(TextFault, &str); 9] = [
    (TextFault::NotAscii { place: 10 }, "P1 at 10"),
    (TextFault::UnknownByte { place: 11 }, "P2 at 11"),
    (TextFault::UnexpectedToken { place: 12 }, "P3 at 12"),
    (TextFault::UnexpectedEnd { place: 13 }, "P4 at 13"),
    (TextFault::NumberOutOfRange { place: 14 }, "P5 at 14"),
    (TextFault::NameTooLong { place: 15 }, "P6 at 15"),
    (TextFault::TooDeep { place: 16 }, "P7 at 16"),
    (TextFault::TooLong { place: 17 }, "P8 at 17"),
    (TextFault::Memory, "memory"),
];

#[test]
fn faults_of_texts_are_a_code_and_a_byte(rt: HostRuntime) -> Result<(), AllocError> {
    for (fault, wanted) in &TEXT_FAULTS {
        let text = fault.to_string(rt.alloc())?;
        is_told(&rt, "a fault of a text", text.as_str(), wanted);
    }
    Ok(())
}

const TABLE: Place = Place::Table { table: 3 };

const PROGRAM: Place = Place::Program { program: 4 };

const STATEMENT: Place = Place::Statement {
    program: 5,
    statement: 6,
};

/// Faults of sets and their texts.
const SET_FAULTS: [(CheckFault, &str); 12] = [
    (CheckFault::DuplicateTable { place: TABLE }, "C1 table 3"),
    (
        CheckFault::DuplicateProgram { place: PROGRAM },
        "C2 program 4",
    ),
    (
        CheckFault::DuplicateParameter { place: PROGRAM },
        "C3 program 4",
    ),
    (
        CheckFault::UnknownTable { place: STATEMENT },
        "C4 program 5 statement 6",
    ),
    (
        CheckFault::UnknownName { place: STATEMENT },
        "C5 program 5 statement 6",
    ),
    (
        CheckFault::NameTaken { place: STATEMENT },
        "C6 program 5 statement 6",
    ),
    (
        CheckFault::WrongArity { place: STATEMENT },
        "C7 program 5 statement 6",
    ),
    (
        CheckFault::GrowTableChanged { place: STATEMENT },
        "C8 program 5 statement 6",
    ),
    (
        CheckFault::AfterAbort { place: STATEMENT },
        "C9 program 5 statement 6",
    ),
    (CheckFault::TooMany { place: TABLE }, "C10 table 3"),
    (CheckFault::TooManyPaths { place: PROGRAM }, "C11 program 4"),
    (CheckFault::Memory, "memory"),
];

#[test]
fn faults_of_sets_are_a_code_and_a_place(rt: HostRuntime) -> Result<(), AllocError> {
    for (fault, wanted) in &SET_FAULTS {
        let text = fault.to_string(rt.alloc())?;
        is_told(&rt, "a fault of a set", text.as_str(), wanted);
    }
    Ok(())
}
