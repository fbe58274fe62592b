//! What follows from a dangerous structure, and what helps.
ghost use Rattle.std.specs.Prelude.{◌≡◌, ◌↔◌, IfOk, IsTrue, string_bytes};
ghost use Rattle.analysis_words.specs.Helping.{clashing_text, keep_text, keepers_text};
ghost use Rattle.analysis_words.specs.Helping.{outside_text, parameter_text, shared_text, IsHelp};
ghost use Rattle.analysis_words.specs.Helping.{TakesSharedCell};
ghost use Rattle.analysis_words.specs.Nodes.{seen};
ghost use Rattle.analysis_words.specs.Refusing.{IsAdvice, IsTwinAdvice, advice_text, circle_text};
ghost use Rattle.analysis_words.specs.Refusing.{step_text, twin_advice_text, way_text};

use crate::looks::{is_under_unknown_key, looks_at_range, meets_body};
use crate::quoted::quoted_cells;
use crate::shared_words::other_run;
use crate::shown::{Shown, access_place, node_name};
use dep_graph::Danger;
use prog_paths::Question;
use std::alloc::{AllocError, Global};
use text_places::line_number;

// The next node of a way from a node.
fn step_text(
    alloc: Global,
    shown: Shown<'_>,
    last: usize,
    next: usize,
) -> Result<String, AllocError>
    ensures { IfOk result (λ text. string_bytes text ≡ step_text (seen shown.entry) last next) }
{
    let other = other_run(last, next);
    let next = node_name(alloc, shown, next)?;
    format!(in alloc; ", that before {other}{next}")
}

// A way from a node along these.
fn way_text(
    alloc: Global,
    shown: Shown<'_>,
    from: usize,
    nodes: &[usize],
) -> Result<String, AllocError>
    ensures { IfOk result (λ text. string_bytes text ≡ way_text (seen shown.entry) from nodes.now) }
{
    let mut text = String::new(alloc);
    let mut last = from;
    for node in nodes {
        let step = step_text(alloc, shown, last, *node)?;
        text.push_str(&step)?;
        last = *node;
    }
    Ok(text)
}

// The circle along both edges and the way back.
fn circle_text(alloc: Global, shown: Shown<'_>, danger: &Danger) -> Result<String, AllocError>
    ensures { IfOk result (λ text. string_bytes text ≡ circle_text (seen shown.entry) danger.now) }
{
    let first = node_name(alloc, shown, danger.x)?;
    let other = other_run(danger.x, danger.y);
    let middle = node_name(alloc, shown, danger.y)?;
    let way = way_text(alloc, shown, danger.y, danger.back.as_slice())?;
    format!(in alloc; "{first} would have to stand before {other}{middle}{way}")
}

// The two of a question, as those that keep one cell.
fn keepers_text(alloc: Global, shown: Shown<'_>, question: Question) -> Result<String, AllocError>
    ensures { IfOk result (λ text. string_bytes text ≡ keepers_text (seen shown.entry) question) }
{
    let reader = node_name(alloc, shown, question.x)?;
    if question.x == question.y {
        return format!(in alloc; "each run of {reader} has to `keep`");
    }
    let writer = node_name(alloc, shown, question.y)?;
    format!(in alloc; "both {reader} and {writer} `keep`")
}

// The two of a question, as those that clash.
fn clashing_text(alloc: Global, shown: Shown<'_>, question: Question) -> Result<String, AllocError>
    ensures { IfOk result (λ text. string_bytes text ≡ clashing_text (seen shown.entry) question) }
{
    let reader = node_name(alloc, shown, question.x)?;
    if question.x == question.y {
        return format!(in alloc; "two runs of {reader} clash");
    }
    let writer = node_name(alloc, shown, question.y)?;
    format!(in alloc; "{reader} clashes with {writer}")
}

fn outside_text(in_body: bool) -> &'static str
    ensures { result.now ≡ outside_text in_body }
{
    if in_body {
        " outside of any `each`"
    } else {
        ""
    }
}

// A cell in place of those that a question is about, which both keep, and surely: so in no body of
// an `each`, which may have no turn.
fn shared_text(
    alloc: Global,
    shown: Shown<'_>,
    question: Question,
    cells: &str,
) -> Result<String, AllocError>
    ensures { IfOk result (λ text. string_bytes text
        ≡ shared_text (seen shown.entry) question cells.now) }
{
    let keepers = keepers_text(alloc, shown, question)?;
    let outside = outside_text(meets_body(shown, &question));
    format!(in alloc; "one cell that stands for `{cells}`, which {keepers}{outside}")
}

// The cell that the first of a question looks at, which it keeps.
fn keep_text(
    alloc: Global,
    shown: Shown<'_>,
    question: Question,
    cells: &str,
    line: usize,
) -> Result<String, AllocError>
    ensures { IfOk result (λ text. string_bytes text
        ≡ keep_text (seen shown.entry) question cells.now line) }
{
    let clashing = clashing_text(alloc, shown, question)?;
    format!(in alloc; "`keep {cells};` behind line {line}, so that {clashing}")
}

// The cell that the first of a question looks at, which it keeps by a key that is made a parameter:
// no parameters and numbers tell it.
fn parameter_text(
    alloc: Global,
    shown: Shown<'_>,
    question: Question,
    cells: &str,
    line: usize,
) -> Result<String, AllocError>
    ensures { IfOk result (λ text. string_bytes text
        ≡ parameter_text (seen shown.entry) question cells.now line) }
{
    let clashing = clashing_text(alloc, shown, question)?;
    format!(in alloc;
        "the key of `{cells}` made a parameter, and a `keep` of that cell behind line {line}, so that {clashing}"
    )
}

// Whether no keep of its own covers what the first of a question looks at: cells of a range, or
// where one of both stands in the body of an `each`.
fn takes_shared_cell(
    alloc: Global,
    shown: Shown<'_>,
    question: &Question,
) -> Result<bool, AllocError>
    ensures { IfOk result (λ yes. IsTrue yes ↔ TakesSharedCell (seen shown.entry) question.now) }
{
    if meets_body(shown, question) {
        return Ok(true);
    }
    looks_at_range(alloc, shown, question)
}

// What makes the two of a question clash: the first keeps the cell that it looks at, or both keep
// one cell.
fn help(alloc: Global, shown: Shown<'_>, question: Question) -> Result<String, AllocError>
    ensures { IfOk result (λ text. IsHelp (seen shown.entry) question (string_bytes text)) }
{
    let Some(place) = access_place(shown, question.x, question.a) else {
        let keepers = keepers_text(alloc, shown, question)?;
        return format!(in alloc; "a cell that {keepers}");
    };
    let line = line_number(shown.text.bytes(), place);
    let found = quoted_cells(alloc, shown.text, place)?;
    let cells = found.as_str();
    let is_shared = takes_shared_cell(alloc, shown, &question)?;
    if is_shared {
        return shared_text(alloc, shown, question, cells);
    }
    if is_under_unknown_key(shown, &question) {
        return parameter_text(alloc, shown, question, cells, line);
    }
    keep_text(alloc, shown, question, cells, line)
}

// Why nothing hinders both edges, how the circle closes, and what helps against either edge.
fn advice_text(alloc: Global, circle: &str, first: &str, second: &str) -> Result<String, AllocError>
    ensures { IfOk result (λ words. string_bytes words
        ≡ advice_text circle.now first.now second.now) }
{
    format!(in alloc;
        "the two of each pair can be under way at once: \
        no cell is sure to be changed or kept by both, so neither has to clash\n\
        in a serial order {circle}\nwhat helps: {first}; or {second}\n"
    )
}

// Why nothing hinders an edge that is both, how the circle closes, and what helps against it.
fn twin_advice_text(alloc: Global, help: &str) -> Result<String, AllocError>
    ensures { IfOk result (λ words. string_bytes words ≡ twin_advice_text help.now) }
{
    format!(in alloc;
        "each can miss the other's change so, and both can be under way at once: \
        no cell is sure to be changed or kept by both, so neither has to clash\n\
        in a serial order each would have to stand before the other\nwhat helps: {help}\n"
    )
}

/// Why nothing hinders both edges, how the circle closes, and what to do about it.
pub fn advice(alloc: Global, shown: Shown<'_>, danger: &Danger) -> Result<String, AllocError>
    ensures { IfOk result (λ words. IsAdvice (seen shown.entry) danger.now (string_bytes words)) }
{
    let circle = circle_text(alloc, shown, danger)?;
    let first = help(alloc, shown, danger.first.question)?;
    let second = help(alloc, shown, danger.second.question)?;
    advice_text(alloc, &circle, &first, &second)
}

/// Why nothing hinders an edge that is both, and what to do about it.
pub fn twin_advice(alloc: Global, shown: Shown<'_>, danger: &Danger) -> Result<String, AllocError>
    ensures { IfOk result (λ words.
        IsTwinAdvice (seen shown.entry) danger.now (string_bytes words)) }
{
    let help = help(alloc, shown, danger.first.question)?;
    twin_advice_text(alloc, &help)
}
