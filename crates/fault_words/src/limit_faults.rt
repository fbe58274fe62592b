//! What is above a limit of sets, in words.

use crate::naming::program_params;
use crate::ordinals::ordinal;
use crate::scope::has_each;
use prog_check::{MAX_ACCESSES, MAX_PARAMETERS, MAX_PROGRAMS, MAX_STATEMENTS, MAX_TABLES, Place};
use prog_text::{TextFault, parse};
use std::alloc::{AllocError, Global};
use text_places::SetText;

// That a way through the program that begins at a place has too many accesses.
fn too_many_accesses(alloc: Global, plain: &[u8], at: usize) -> Result<String, AllocError> {
    let bodies = if has_each(plain, at) {
        "; all that stand in the body of an `each` count, once each"
    } else {
        ""
    };
    format!(in alloc;
        "a way through this program makes more than {MAX_ACCESSES} accesses, the most allowed{bodies}"
    )
}

// That a table, a program or a statement is the first above a limit.
fn one_too_many(alloc: Global, part: &str, whole: &str, most: usize) -> Result<String, AllocError> {
    let number = ordinal(alloc, most.saturating_add(1))?;
    format!(in alloc; "this is the {number} {part}, and a {whole} has at most {most}")
}

fn too_much_in_program(
    alloc: Global,
    text: &SetText<'_>,
    program: usize,
    at: usize,
) -> Result<String, AllocError> {
    if program >= MAX_PROGRAMS {
        return one_too_many(alloc, "program", "set", MAX_PROGRAMS);
    }
    let count = match parse(alloc, text.bytes()) {
        Ok(draft) => program_params(&draft, program).len(),
        Err(TextFault::Memory) => return Err(AllocError),
        Err(_) => 0,
    };
    if count > MAX_PARAMETERS {
        return format!(in alloc;
            "this program has {count} parameters, and at most {MAX_PARAMETERS} are allowed"
        );
    }
    too_many_accesses(alloc, text.plain(), at)
}

/// That a table, a program or a statement is above a limit.
pub fn too_many(
    alloc: Global,
    text: &SetText<'_>,
    place: Place,
    at: usize,
) -> Result<String, AllocError> {
    match place {
        Place::Table { .. } => one_too_many(alloc, "table", "set", MAX_TABLES),
        Place::Program { program } => too_much_in_program(alloc, text, program, at),
        Place::Statement { .. } => one_too_many(alloc, "statement", "program", MAX_STATEMENTS),
    }
}
