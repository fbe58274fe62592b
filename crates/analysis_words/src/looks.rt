//! What a program looks at that another may change unseen.
ghost use Rattle.std.specs.Prelude.{◌≡◌, ◌↔◌, IfOk, IsTrue};
ghost use Rattle.analysis_words.specs.Helping.{meets_body, IsUnderUnknownKey, LooksAtRange};
ghost use Rattle.analysis_words.specs.Nodes.{seen};

use crate::quoted::quoted_cells;
use crate::shown::{Shown, access_of, access_place, is_in_body, node_name, program_of, turns_text};
use prog_paths::Question;
use si_repair::{has_unknown_key, is_range_at};
use std::alloc::{AllocError, Global};
use text_places::{line_number, point_out};

/// A question for each statement that looks, the first one of it.
pub fn first_of_each(
    alloc: Global,
    shown: Shown<'_>,
    questions: &[Question],
) -> Result<Vec<Question>, AllocError> {
    let mut statements = Vec::new(alloc);
    let mut firsts = Vec::new(alloc);
    for question in questions {
        let statement = access_of(shown, question.x, question.a).map(|access| access.place);
        if !statements.contains(&statement) {
            statements.push(statement)?;
            firsts.push(*question)?;
        }
    }
    Ok(firsts)
}

/// The cells that the statement of a look names; nothing where it is not found.
pub fn looked_at(
    alloc: Global,
    shown: Shown<'_>,
    question: Question,
) -> Result<String, AllocError> {
    match access_place(shown, question.x, question.a) {
        Some(place) => quoted_cells(alloc, shown.text, place),
        None => Ok(String::new(alloc)),
    }
}

/// Whether the key of a look is told by no parameters and numbers.
pub fn is_under_unknown_key(shown: Shown<'_>, question: &Question) -> bool
    ensures { IsTrue result ↔ IsUnderUnknownKey (seen shown.entry) question.now }
{
    let Some(look) = access_of(shown, question.x, question.a) else {
        return false;
    };
    has_unknown_key(&look)
}

/// Whether the statement of a question's look is a range.
pub fn looks_at_range(
    alloc: Global,
    shown: Shown<'_>,
    question: &Question,
) -> Result<bool, AllocError>
    ensures { IfOk result (λ yes. IsTrue yes ↔ LooksAtRange (seen shown.entry) question.now) }
{
    let Some(program) = program_of(shown, question.x) else {
        return Ok(false);
    };
    let Some(look) = access_of(shown, question.x, question.a) else {
        return Ok(false);
    };
    is_range_at(alloc, shown.set.draft(), program, look.place)
}

/// Whether the look of a question, or what changes what it looks at, stands in the body of an
/// `each`.
pub fn meets_body(shown: Shown<'_>, question: &Question) -> bool
    ensures { result ≡ meets_body (seen shown.entry) question.now }
{
    is_in_body(shown, question.x, question.a) || is_in_body(shown, question.y, question.b)
}

/// Points at a look, with what to say of it and the line that changes what it looks at; nothing
/// where one of the two is not found.
pub fn look_words(
    alloc: Global,
    shown: Shown<'_>,
    question: Question,
    what: &str,
) -> Result<String, AllocError> {
    let Some(look) = access_place(shown, question.x, question.a) else {
        return Ok(String::new(alloc));
    };
    let Some(change) = access_place(shown, question.y, question.b) else {
        return Ok(String::new(alloc));
    };
    let line = line_number(shown.text.bytes(), change);
    let turns = turns_text(shown, question.y, question.b);
    let sentence = format!(in alloc; "{what} at what line {line} changes{turns}")?;
    point_out(alloc, shown.text.bytes(), look, &sentence)
}

/// Says of a question that may be none which of its node's statements looks.
pub fn reason_words(
    alloc: Global,
    shown: Shown<'_>,
    question: Option<&Question>,
) -> Result<String, AllocError> {
    let Some(question) = question else {
        return Ok(String::new(alloc));
    };
    let name = node_name(alloc, shown, question.x)?;
    let turns = turns_text(shown, question.x, question.a);
    let what = format!(in alloc; "{name} looks here{turns}")?;
    look_words(alloc, shown, *question, &what)
}
