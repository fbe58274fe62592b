//! The lines of a script that do nothing, in words.
ghost use Rattle.std.specs.Prelude.{◌≡◌, ◌++◌, List, ℕ, Some, IfNone, IfOk, IfSome, OnOk};
ghost use Rattle.std.specs.Prelude.{string_bytes};
ghost use Rattle.text_places.specs.Places.{HasNoLine};
ghost use Rattle.text_places.specs.Listing.{TellsEach};
ghost use Rattle.run_words.specs.PartPointing.{HasNoLineOf, PointsAtLineIn};
ghost use Rattle.run_words.specs.ToldLines.{first_told, following_text, further_text, TellsLine};
ghost use Rattle.run_words.specs.ToldLines.{TellsRefused};

use crate::begin_numbers::number_words;
use crate::begin_reasons::{full_words, wrong_arguments};
use crate::in_input::{Part, point_in_part};
use crate::refusals::{EventRefusal, Refusals, Refused};
use prog_check::ProgramSet;
use std::alloc::{AllocError, Global};
use text_places::line_front;

// Why a line does nothing.
fn sentence(alloc: Global, set: &ProgramSet, refusal: EventRefusal) -> Result<String, AllocError> {
    match refusal {
        EventRefusal::WrongArguments { program, given } => {
            let words = wrong_arguments(alloc, set, program, given)?;
            format!(in alloc; "{words}; no instance begins")
        }
        EventRefusal::OtherNumber { start, numbers } => number_words(alloc, start, numbers),
        EventRefusal::Full => {
            let words = full_words(alloc)?;
            format!(in alloc; "{words}; no instance begins")
        }
        EventRefusal::NoInstance(instance) => format!(in alloc; "no instance {instance} has begun"),
        EventRefusal::NotReady(instance) => format!(in alloc;
            "instance {instance} has more steps to do before it can commit"
        ),
        EventRefusal::Ended(instance) => format!(in alloc; "instance {instance} has ended before"),
    }
}

// A line with why it does nothing; nothing where it is not found.
fn told_line(
    alloc: Global,
    set: &ProgramSet,
    part: Part<'_>,
    refused: Refused,
) -> Result<Option<String>, AllocError>
    ensures said { IfOk result (λ said. IfSome said (λ words.
        PointsAtLineIn part.entry (Some refused.line) (string_bytes words))) }
    ensures none { IfOk result (λ said. IfNone said (HasNoLine part.entry.bytes.now refused.line)) }
{
    let Some(front) = line_front(part.bytes, refused.line) else {
        return Ok(None);
    };
    let sentence = sentence(alloc, set, refused.refusal)?;
    let words = point_in_part(alloc, part, front, &sentence)?;
    Ok(Some(words))
}

// The same; an empty text where the line is not found.
fn words_or_none(
    alloc: Global,
    set: &ProgramSet,
    part: Part<'_>,
    refused: Refused,
) -> Result<String, AllocError>
    ensures { IfOk result (λ words. TellsLine part.entry refused (string_bytes words)) }
{
    match told_line(alloc, set, part, refused)? {
        Some(words) => Ok(words),
        None => Ok(String::new(alloc)),
    }
}

// Adds lines that do nothing.
fn push_lines(
    alloc: Global,
    set: &ProgramSet,
    part: Part<'_>,
    told: &[Refused],
    out: &mut String,
) -> Result<(), AllocError>
    ensures { OnOk result ((lines : List ℕ)
        × TellsEach (TellsLine part.entry) told.now lines
        × (string_bytes out.new ≡ string_bytes out.old ++ lines)) }
{
    for refused in told {
        let words = words_or_none(alloc, set, part, *refused)?;
        out.push_str(&words)?;
    }
    Ok(())
}

// How many lines name an instance that has not begun.
fn following_text(alloc: Global, count: usize) -> Result<String, AllocError>
    ensures { IfOk result (λ text. string_bytes text ≡ following_text count) }
{
    if count == 0 {
        return Ok(String::new(alloc));
    }
    format!(in alloc; "lines behind it that name an instance which has not begun: {count}\n")
}

// How many lines more do nothing.
fn further_text(alloc: Global, count: usize) -> Result<String, AllocError>
    ensures { IfOk result (λ text. string_bytes text ≡ further_text count) }
{
    if count == 0 {
        return Ok(String::new(alloc));
    }
    format!(in alloc; "further lines that do nothing: {count}\n")
}

/// Which lines of a script do nothing, and why; nothing where none is told, or the first of them is
/// not found.
pub fn refused_words(
    alloc: Global,
    set: &ProgramSet,
    part: Part<'_>,
    refusals: &Refusals,
) -> Result<Option<String>, AllocError>
    ensures said { IfOk result (λ said. IfSome said (λ words.
        TellsRefused part.entry refusals.now (string_bytes words))) }
    ensures none { IfOk result (λ said. IfNone said
        (HasNoLineOf part.entry.bytes.now (first_told refusals.now))) }
{
    let [head, rest @ ..] = refusals.told_lines() else {
        return Ok(None);
    };
    let Some(first) = told_line(alloc, set, part, *head)? else {
        return Ok(None);
    };
    let mut others = String::new(alloc);
    push_lines(alloc, set, part, rest, &mut others)?;
    let following = following_text(alloc, refusals.following)?;
    let further = further_text(alloc, refusals.more)?;
    let words = format!(in alloc; "{first}{others}{following}{further}")?;
    Ok(Some(words))
}
