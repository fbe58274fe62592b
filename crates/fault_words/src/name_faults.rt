//! The names of a statement that are at fault, in words, and where they stand.
ghost use Rattle.std.specs.Prelude.{◌≡◌};
ghost use Rattle.std.specs.List.{list_all};
ghost use Rattle.fault_words.specs.Pointing.{goes_on, is_word_of, IsMark};

use crate::nearest::known_names;
use crate::reserved::in_lower_case;
use crate::scope::{
    Scope, goes_on, is_bound_among, is_of_turn, taken_name, token_place, unknown_name,
};
use crate::slips::case_words;
use prog_check::{CheckFault, Place};
use std::alloc::{AllocError, Global};
use text_places::{SetText, as_text, before, begins_word, behind, first_word};

// The program of the statement whose names are at fault.
fn program_of(fault: CheckFault) -> Option<usize> {
    match fault {
        CheckFault::UnknownName {
            place: Place::Statement { program, .. },
        }
        | CheckFault::NameTaken {
            place: Place::Statement { program, .. },
        } => Some(program),
        _ => None,
    }
}

/// The statement that begins at a place, where its names are at fault.
pub fn scope_of<'a>(
    alloc: Global,
    text: &'a SetText<'_>,
    fault: CheckFault,
    at: usize,
) -> Result<Scope<'a>, AllocError> {
    let Some(program) = program_of(fault) else {
        return Ok(Scope::none(alloc));
    };
    let start = text.program_place(program).unwrap_or(0);
    Scope::of(alloc, text.plain(), start, at)
}

// Where the name stands that a statement uses and that is not bound. Names are bound by parameters,
// by `let` and by `each`.
fn unbound_place(plain: &[u8], scope: &Scope<'_>, at: usize) -> Option<usize> {
    let number = unknown_name(&scope.statement, &scope.visible)?;
    let place = token_place(behind(plain, at), number).unwrap_or(0);
    Some(at.saturating_add(place))
}

// Whether all of these bytes may stand in a statement or a test.
fn go_on(bytes: &[u8]) -> bool
    ensures { result ≡ list_all goes_on bytes.now }
{
    bytes.iter().all(|byte| goes_on(*byte))
}

// Whether a word of the statement or the test that begins at a place stands at a mark.
fn is_word_of(plain: &[u8], at: usize, mark: usize) -> bool
    ensures { result ≡ is_word_of plain.now at mark }
{
    at <= mark
        && (begins_word(plain, mark) && go_on(before(behind(plain, at), mark.saturating_sub(at))))
}

/// Where the mark stands, of what begins at a place: at a name that is not bound.
pub fn mark_of(text: &SetText<'_>, fault: CheckFault, scope: &Scope<'_>, at: usize) -> usize
    ensures { IsMark text.now fault at result }
{
    let CheckFault::UnknownName { .. } = fault else {
        return at;
    };
    let plain = text.plain();
    match unbound_place(plain, scope, at) {
        Some(mark) if is_word_of(plain, at, mark) => mark,
        _ => at,
    }
}

// That a name is not bound where a statement uses it.
fn unknown_words(alloc: Global, scope: &Scope<'_>, name: &str) -> Result<String, AllocError> {
    if is_of_turn(&scope.statement, name) {
        return format!(in alloc;
            "`{name}` is bound in the block of this `each`, and not before it"
        );
    }
    if is_bound_among(&scope.before, name) {
        return format!(in alloc;
            "`{name}` is bound only in a block that ends before this statement"
        );
    }
    let known = known_names(alloc, name, &scope.visible)?;
    format!(in alloc; "`{name}` is no parameter, and no `let` or `each` before binds it; {known}")
}

/// That the name at the mark is not bound, or is a word of the language but for the case of its
/// letters.
pub fn unbound_name(
    alloc: Global,
    plain: &[u8],
    scope: &Scope<'_>,
    at: usize,
    mark: usize,
) -> Result<String, AllocError> {
    if mark == at {
        return format!(in alloc; "a name of this statement is not bound");
    }
    let name = as_text(first_word(behind(plain, mark)));
    if in_lower_case(name).is_some() {
        return case_words(alloc, name, "");
    }
    unknown_words(alloc, scope, name)
}

/// The name that a statement binds, and that is taken.
pub fn name_taken(alloc: Global, scope: &Scope<'_>) -> Result<String, AllocError> {
    if scope.statement.is_empty() {
        return format!(in alloc; "a name is taken");
    }
    let name = taken_name(&scope.statement, &scope.visible);
    if !(&*scope.visible).contains(&name) {
        return format!(in alloc;
            "both names of this `each` are `{name}`; the value wants another than the key"
        );
    }
    format!(in alloc;
        "`{name}` is a parameter, or bound by a `let` or an `each` before; bind another name"
    )
}
