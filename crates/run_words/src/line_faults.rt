//! The faults of a line of a script, of a list of records or of a list of jobs in words.
ghost use Rattle.std.specs.Prelude.{◌≡◌, IfNone, IfOk, IfSome, string_bytes};
ghost use Rattle.run_words.specs.PartPointing.{line_of_fault, HasNoLineOf, PointsAtLineIn};

use crate::forms::{PartKind, command_of, first_words, form_of, may_begin, name_in, no_number};
use crate::in_input::{Part, point_in_part};
use crate::line_reading::{line_bytes, shown, words_of};
use fault_words::{known_names, program_names, table_names};
use prog_check::ProgramSet;
use si_engine::{LineFault, MAX_EVENTS};
use std::alloc::{AllocError, Global};
use text_places::line_front;

// That no line begins with a word, and which do; of another command's line the command.
fn other_beginning(alloc: Global, kind: PartKind, first: &str) -> Result<String, AllocError> {
    let begins = first_words(kind);
    if let Some(command) = command_of(first) {
        let known = known_names(alloc, "", begins)?;
        return format!(in alloc;
            "no line begins with `{first}`, as one for `sirob {command}` does; {known}"
        );
    }
    let known = known_names(alloc, first, begins)?;
    let first = shown(alloc, first)?;
    format!(in alloc; "no line begins with `{first}`; {known}")
}

const TAB: &str = "a tab stands in this line; words are separated by spaces alone";

fn bad_line(
    alloc: Global,
    kind: PartKind,
    line: &[u8],
    words: &[&str],
) -> Result<String, AllocError> {
    if (&*line).contains(&b'\r') {
        return format!(in alloc;
            "a carriage return stands in this line; but for one at its end a line has none"
        );
    }
    if (&*line).contains(&b'\t') {
        return format!(in alloc; "{TAB}");
    }
    let [first, ..] = words else {
        return format!(in alloc; "only spaces; a line without words has no spaces either");
    };
    let first: &str = *first;
    if first.starts_with('#') {
        return format!(in alloc; "the line of a comment begins with its `#`, and not with spaces");
    }
    if !may_begin(kind, first) {
        return other_beginning(alloc, kind, first);
    }
    let form = form_of(alloc, first)?;
    match no_number(words) {
        Some(word) => {
            let word = shown(alloc, word)?;
            format!(in alloc; "`{word}` is no number that can stand here; the form is {form}")
        }
        None => format!(in alloc; "this is not of the form {form}"),
    }
}

fn unknown_name(alloc: Global, set: &ProgramSet, words: &[&str]) -> Result<String, AllocError> {
    let Some(name) = name_in(words) else {
        return format!(in alloc; "the name is not known");
    };
    if name.contains('\t') {
        return format!(in alloc; "{TAB}");
    }
    let (what, names) = match words {
        ["row", ..] => ("table", table_names(alloc, set.draft())?),
        _ => ("program", program_names(alloc, set.draft())?),
    };
    let known = known_names(alloc, name, &names)?;
    let name = shown(alloc, name)?;
    format!(in alloc; "no {what} is called `{name}`; {known}")
}

fn wrong_keys(alloc: Global, words: &[&str]) -> Result<String, AllocError> {
    let table = match words {
        [_, table, ..] => *table,
        _ => "",
    };
    match words {
        [_, _, _key, _sign, _value] => format!(in alloc;
            "`{table}` has two key columns, and here it is given one key"
        ),
        _ => format!(in alloc; "`{table}` has one key column, and here it is given two keys"),
    }
}

fn late_row(alloc: Global, kind: PartKind) -> Result<String, AllocError> {
    match kind {
        PartKind::Script => format!(in alloc; "a row behind an event; all rows stand before"),
        PartKind::Records => format!(in alloc; "a row behind a record; all rows stand before"),
        PartKind::Jobs => format!(in alloc; "a row behind a job; all rows stand before"),
    }
}

// What is wrong with a line.
fn sentence(
    alloc: Global,
    kind: PartKind,
    set: &ProgramSet,
    line: &[u8],
    fault: LineFault,
) -> Result<String, AllocError> {
    let words = words_of(alloc, line)?;
    match fault {
        LineFault::BadLine { .. } => bad_line(alloc, kind, line, &words),
        LineFault::UnknownName { .. } => unknown_name(alloc, set, &words),
        LineFault::WrongKeys { .. } => wrong_keys(alloc, &words),
        LineFault::LateRow { .. } => late_row(alloc, kind),
        LineFault::RepeatedRow { .. } => format!(in alloc; "an earlier row is of this cell too"),
        LineFault::TooManyEvents { .. } => format!(in alloc;
            "with this line the script has more than {MAX_EVENTS} events, the most it may have"
        ),
        LineFault::Memory => format!(in alloc; "memory ran out"),
    }
}

// The line that the line of a fault names.
fn line_of_fault(fault: LineFault) -> Option<usize>
    ensures { result ≡ line_of_fault fault }
{
    match fault {
        LineFault::BadLine { line }
        | LineFault::UnknownName { line }
        | LineFault::WrongKeys { line }
        | LineFault::LateRow { line }
        | LineFault::RepeatedRow { line }
        | LineFault::TooManyEvents { line } => Some(line),
        LineFault::Memory => None,
    }
}

/// What a fault of a line means, and the line in its part; nothing where it is not found.
pub fn line_fault_words(
    alloc: Global,
    kind: PartKind,
    set: &ProgramSet,
    part: Part<'_>,
    fault: LineFault,
) -> Result<Option<String>, AllocError>
    ensures said { IfOk result (λ said. IfSome said (λ words.
        PointsAtLineIn part.entry (line_of_fault fault) (string_bytes words))) }
    ensures none { IfOk result (λ said. IfNone said
        (HasNoLineOf part.entry.bytes.now (line_of_fault fault))) }
{
    let Some(line) = line_of_fault(fault) else {
        return Ok(None);
    };
    let Some(front) = line_front(part.bytes, line) else {
        return Ok(None);
    };
    let sentence = sentence(alloc, kind, set, line_bytes(part.bytes, front), fault)?;
    let words = point_in_part(alloc, part, front, &sentence)?;
    Ok(Some(words))
}
