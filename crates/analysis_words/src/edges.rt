//! The edges of a dangerous structure in words.
ghost use Rattle.std.specs.Prelude.{◌≡◌, ◌↔◌, IfNone, IfOk, IfSome, IsTrue, string_bytes};
ghost use Rattle.analysis_words.specs.Edges.{change_text, look_text, told_text, twin_change_text};
ghost use Rattle.analysis_words.specs.Edges.{twin_look_text, unseen_text, IsRepeated};
ghost use Rattle.analysis_words.specs.Edges.{IsSameQuestion};
ghost use Rattle.analysis_words.specs.Nodes.{seen};
ghost use Rattle.analysis_words.specs.Refusing.{LacksQuestion, ShowsEdge, ShowsQuestion};
ghost use Rattle.analysis_words.specs.Refusing.{ShowsTwins};

use crate::instances::{instance_text, numbers_along};
use crate::pointed::point_at_access;
use crate::shared_words::other_run;
use crate::shown::{Shown, node_name, turns_text};
use dep_graph::{Danger, Exposure};
use prog_paths::Question;
use std::alloc::{AllocError, Global};

// What is said where the first instance of a question looks.
fn look_text(alloc: Global, shown: Shown<'_>, edge: &Exposure) -> Result<String, AllocError>
    ensures { IfOk result (λ text. string_bytes text ≡ look_text (seen shown.entry) edge.now) }
{
    let reader = instance_text(alloc, shown, &edge.sample, true, edge.question.x)?;
    let turns = turns_text(shown, edge.question.x, edge.question.a);
    format!(in alloc; "{reader} looks here{turns}")
}

// What is said behind the instance that changes what another looked at.
fn unseen_text(
    alloc: Global,
    shown: Shown<'_>,
    node: usize,
    access: usize,
) -> Result<String, AllocError>
    ensures { IfOk result (λ text. string_bytes text ≡ unseen_text (seen shown.entry) node access) }
{
    let turns = turns_text(shown, node, access);
    format!(in alloc; " changes here{turns} what that looked at, unseen by it")
}

// What is said where the second one changes that.
fn change_text(alloc: Global, shown: Shown<'_>, edge: &Exposure) -> Result<String, AllocError>
    ensures { IfOk result (λ text. string_bytes text ≡ change_text (seen shown.entry) edge.now) }
{
    let other = other_run(edge.question.x, edge.question.y);
    let writer = instance_text(alloc, shown, &edge.sample, false, edge.question.y)?;
    let unseen = unseen_text(alloc, shown, edge.question.y, edge.question.b)?;
    format!(in alloc; "{other}{writer}{unseen}")
}

// What is said where one of two instances of one node looks, each of which may be the first.
fn twin_look_text(alloc: Global, shown: Shown<'_>, edge: &Exposure) -> Result<String, AllocError>
    ensures { IfOk result (λ text. string_bytes text ≡ twin_look_text (seen shown.entry) edge.now) }
{
    let name = node_name(alloc, shown, edge.question.x)?;
    let numbers = numbers_along(alloc, shown, &edge.sample, true, edge.question.x)?;
    let turns = turns_text(shown, edge.question.x, edge.question.a);
    format!(in alloc; "two runs of {name}: one{numbers} looks here{turns}")
}

fn twin_change_text(alloc: Global, shown: Shown<'_>, edge: &Exposure) -> Result<String, AllocError>
    ensures { IfOk result (λ text. string_bytes text
        ≡ twin_change_text (seen shown.entry) edge.now) }
{
    let numbers = numbers_along(alloc, shown, &edge.sample, false, edge.question.y)?;
    let unseen = unseen_text(alloc, shown, edge.question.y, edge.question.b)?;
    format!(in alloc; "the other{numbers}{unseen}")
}

// All that is said of an edge.
fn told_text(alloc: Global, shown: Shown<'_>, edge: &Exposure) -> Result<String, AllocError>
    ensures { IfOk result (λ text. string_bytes text ≡ told_text (seen shown.entry) edge.now) }
{
    let look = look_text(alloc, shown, edge)?;
    let change = change_text(alloc, shown, edge)?;
    format!(in alloc; "{look}; {change}")
}

// Whether two accesses are one, by their nodes and numbers.
fn is_same_access(node: usize, access: usize, other_node: usize, other_access: usize) -> bool
    ensures { IsTrue result ↔ ((node ≡ other_node) × (access ≡ other_access)) }
{
    node == other_node && access == other_access
}

// Whether two questions are of the same accesses.
fn is_same_question(question: Question, other: Question) -> bool
    ensures { IsTrue result ↔ IsSameQuestion question other }
{
    is_same_access(question.x, question.a, other.x, other.a)
        && is_same_access(question.y, question.b, other.y, other.b)
}

// Whether two edges are of the same accesses, and told alike.
fn is_one(question: Question, other: Question, told: &str, other_told: &str) -> bool
    ensures { IsTrue result ↔ (IsSameQuestion question other × (told.now ≡ other_told.now)) }
{
    is_same_question(question, other) && told == other_told
}

/// Whether both edges are the same, in the same sample.
pub fn is_repeated(alloc: Global, shown: Shown<'_>, danger: &Danger) -> Result<bool, AllocError>
    ensures { IfOk result (λ yes. IsTrue yes ↔ IsRepeated (seen shown.entry) danger.now) }
{
    let told = told_text(alloc, shown, &danger.first)?;
    let second = told_text(alloc, shown, &danger.second)?;
    let answer = is_one(
        danger.first.question,
        danger.second.question,
        &told,
        &second,
    );
    Ok(answer)
}

// Both accesses of a question, each where it stands, with what is said of it.
fn question_words(
    alloc: Global,
    shown: Shown<'_>,
    question: Question,
    look: &str,
    change: &str,
) -> Result<Option<String>, AllocError>
    ensures said { IfOk result (λ said. IfSome said (λ words. ShowsQuestion (seen shown.entry)
        question look.now change.now (string_bytes words))) }
    ensures none { IfOk result (λ said. IfNone said (LacksQuestion (seen shown.entry) question)) }
{
    let Some(reader) = point_at_access(alloc, shown, question.x, question.a, look)? else {
        return Ok(None);
    };
    let Some(writer) = point_at_access(alloc, shown, question.y, question.b, change)? else {
        return Ok(None);
    };
    let words = format!(in alloc; "{reader}{writer}")?;
    Ok(Some(words))
}

/// An edge: both accesses of its question, with an instance for each; nothing where they are not
/// found.
pub fn edge_words(
    alloc: Global,
    shown: Shown<'_>,
    edge: &Exposure,
) -> Result<Option<String>, AllocError>
    ensures said { IfOk result (λ said. IfSome said (λ words. ShowsEdge (seen shown.entry) edge.now
        (string_bytes words))) }
    ensures none { IfOk result (λ said. IfNone said
        (LacksQuestion (seen shown.entry) edge.now.question)) }
{
    let look = look_text(alloc, shown, edge)?;
    let change = change_text(alloc, shown, edge)?;
    question_words(alloc, shown, edge.question, &look, &change)
}

/// An edge of a node to itself, where it is both edges of a dangerous structure.
pub fn twin_words(
    alloc: Global,
    shown: Shown<'_>,
    edge: &Exposure,
) -> Result<Option<String>, AllocError>
    ensures said { IfOk result (λ said. IfSome said (λ words. ShowsTwins (seen shown.entry) edge.now
        (string_bytes words))) }
    ensures none { IfOk result (λ said. IfNone said
        (LacksQuestion (seen shown.entry) edge.now.question)) }
{
    let look = twin_look_text(alloc, shown, edge)?;
    let change = twin_change_text(alloc, shown, edge)?;
    question_words(alloc, shown, edge.question, &look, &change)
}
