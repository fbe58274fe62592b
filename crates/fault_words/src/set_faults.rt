//! The faults of a set in words.
ghost use Rattle.std.specs.Prelude.{◌≡◌, IfNone, IfOk, IfSome, string_bytes};
ghost use Rattle.fault_words.specs.Pointing.{place_of, HasNone, HasNoPlace, IsPlaceOf, PointsAt};
ghost use Rattle.fault_words.specs.Pointing.{PointsAtFlaw};

use crate::limit_faults::too_many;
use crate::name_faults::{mark_of, name_taken, scope_of, unbound_name};
use crate::naming::table_names;
use crate::nearest::known_names;
use crate::pointing::point_at;
use crate::scope::Scope;
use prog_check::{CheckFault, MAX_PATHS, Place};
use prog_text::parse;
use prog_tree::{Arity, Draft, Name};
use std::alloc::{AllocError, Global};
use text_places::{SetText, as_text, behind, behind_word, first_word, table_name};

// Where a table, a program or a statement begins in a text.
fn find_place(text: &SetText<'_>, place: Place) -> Option<usize>
    ensures found { IfSome result (IsPlaceOf text.now place) }
    ensures none { IfNone result (HasNone text.now place) }
{
    match place {
        Place::Table { table } => text.table_place(table),
        Place::Program { program } => text.program_place(program),
        Place::Statement { program, statement } => text.statement_place(program, statement),
    }
}

// The set that a text spells, where no fault of the text stands before it.
fn draft_of(alloc: Global, text: &[u8]) -> Option<Draft> {
    parse(alloc, text).ok()
}

fn unknown_table(alloc: Global, text: &[u8], statement: &[u8]) -> Result<String, AllocError> {
    let name = as_text(table_name(statement));
    let Some(draft) = draft_of(alloc, text) else {
        return format!(in alloc; "no table is called `{name}`");
    };
    let names = table_names(alloc, &draft)?;
    let known = known_names(alloc, name, &names)?;
    format!(in alloc; "no table is called `{name}`; {known}")
}

fn arity_of(draft: &Draft, name: &str) -> Option<Arity> {
    let table = draft
        .tables
        .iter()
        .find(|table| table.name.as_str() == name)?;
    Some(table.arity)
}

fn wrong_columns(alloc: Global, text: &[u8], statement: &[u8]) -> Result<String, AllocError> {
    let name = as_text(table_name(statement));
    let arity = match draft_of(alloc, text) {
        Some(draft) => arity_of(&draft, name),
        None => None,
    };
    match arity {
        Some(Arity::One) => {
            format!(in alloc; "`{name}` has one key column, and here it is given two")
        }
        Some(Arity::Two) => {
            format!(in alloc; "`{name}` has two key columns, and here it is given one")
        }
        None => format!(in alloc; "`{name}` has another number of key columns"),
    }
}

// The first name that stands twice.
fn repeated(names: &[Name]) -> Option<&Name> {
    for (index, name) in names.iter().enumerate() {
        let earlier = names.get(..index).unwrap_or(&[]);
        if earlier.iter().any(|other| other.is_same(name)) {
            return Some(name);
        }
    }
    None
}

fn repeated_parameter(alloc: Global, text: &[u8], place: Place) -> Result<String, AllocError> {
    let (Place::Program { program }, Some(draft)) = (place, draft_of(alloc, text)) else {
        return format!(in alloc; "two parameters have one name");
    };
    let name = match draft.programs.get(program) {
        Some(program) => repeated(&program.params),
        None => None,
    };
    match name {
        Some(name) => {
            let name = name.as_str();
            format!(in alloc; "two parameters are called `{name}`")
        }
        None => format!(in alloc; "two parameters have one name"),
    }
}

// What the fault is, of what begins at a place of a text.
fn sentence(
    alloc: Global,
    text: &SetText<'_>,
    fault: CheckFault,
    scope: &Scope<'_>,
    at: usize,
    mark: usize,
) -> Result<String, AllocError> {
    let begun = behind(text.bytes(), at);
    let name = as_text(first_word(behind_word(begun)));
    match fault {
        CheckFault::DuplicateTable { .. } => {
            format!(in alloc; "an earlier table is called `{name}` too")
        }
        CheckFault::DuplicateProgram { .. } => {
            format!(in alloc; "an earlier program is called `{name}` too")
        }
        CheckFault::DuplicateParameter { place } => repeated_parameter(alloc, text.bytes(), place),
        CheckFault::UnknownTable { .. } => unknown_table(alloc, text.bytes(), begun),
        CheckFault::UnknownName { .. } => unbound_name(alloc, text.plain(), scope, at, mark),
        CheckFault::NameTaken { .. } => name_taken(alloc, scope),
        CheckFault::WrongArity { .. } => wrong_columns(alloc, text.bytes(), begun),
        CheckFault::GrowTableChanged { .. } => {
            let table = as_text(table_name(begun));
            format!(in alloc;
                "`{table}` is a grow table, whose rows are only ever added, by `insert`"
            )
        }
        CheckFault::AfterAbort { .. } => {
            format!(in alloc; "never reached: the `abort;` before it ends this block")
        }
        CheckFault::TooMany { place } => too_many(alloc, text, place, at),
        CheckFault::TooManyPaths { .. } => {
            format!(in alloc;
                "more than {MAX_PATHS} ways through `{name}` commit; each further `if` doubles them"
            )
        }
        CheckFault::Memory => format!(in alloc; "memory ran out"),
    }
}

// Where the fault lies.
fn place_of(fault: CheckFault) -> Option<Place>
    ensures { result ≡ place_of fault }
{
    match fault {
        CheckFault::DuplicateTable { place }
        | CheckFault::DuplicateProgram { place }
        | CheckFault::DuplicateParameter { place }
        | CheckFault::UnknownTable { place }
        | CheckFault::UnknownName { place }
        | CheckFault::NameTaken { place }
        | CheckFault::WrongArity { place }
        | CheckFault::GrowTableChanged { place }
        | CheckFault::AfterAbort { place }
        | CheckFault::TooMany { place }
        | CheckFault::TooManyPaths { place } => Some(place),
        CheckFault::Memory => None,
    }
}

// Says a sentence of a place of a set's text.
fn point_in(
    alloc: Global,
    text: &SetText<'_>,
    place: usize,
    sentence: &str,
) -> Result<String, AllocError>
    ensures { IfOk result (λ words. PointsAt text.now place (string_bytes words)) }
{
    point_at(alloc, text.bytes(), place, sentence)
}

// What a fault of a set means, and where it stands in the set's text.
fn flaw_words(
    alloc: Global,
    text: &SetText<'_>,
    fault: CheckFault,
) -> Result<Option<String>, AllocError>
    ensures said { IfOk result (λ said. IfSome said (λ words.
        PointsAtFlaw text.now fault (string_bytes words))) }
    ensures none { IfOk result (λ said. IfNone said (HasNoPlace text.now (place_of fault))) }
{
    let Some(place) = place_of(fault) else {
        return Ok(None);
    };
    let Some(at) = find_place(text, place) else {
        return Ok(None);
    };
    let scope = scope_of(alloc, text, fault, at)?;
    let mark = mark_of(text, fault, &scope, at);
    let sentence = sentence(alloc, text, fault, &scope, at, mark)?;
    let words = point_in(alloc, text, mark, &sentence)?;
    Ok(Some(words))
}

/// What a fault of a set means, and where it stands in the set's text; nothing where it is not
/// found.
pub fn check_words(
    alloc: Global,
    text: &[u8],
    fault: CheckFault,
) -> Result<Option<String>, AllocError>
    ensures said { IfOk result (λ said. IfSome said (λ words.
        PointsAtFlaw text.now fault (string_bytes words))) }
    ensures none { IfOk result (λ said. IfNone said (HasNoPlace text.now (place_of fault))) }
{
    let text = SetText::new(alloc, text)?;
    flaw_words(alloc, &text, fault)
}
