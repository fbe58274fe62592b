//! Nodes and their accesses, as they stand in the text of a set.
ghost use Rattle.std.specs.Prelude.{◌≡◌, IfNone, IfOk, IfSome, flat_map, string_bytes};
ghost use Rattle.analysis_words.specs.Nodes.{access_of, branches_text, is_in_body, letter_of};
ghost use Rattle.analysis_words.specs.Nodes.{node_name, program_of, seen, turns_by, turns_text};
ghost use Rattle.analysis_words.specs.Nodes.{HasNoAccess, IsAccessPlace, IsAccessText};

use crate::quoted::quoted_statement;
use fault_words::program_name;
use prog_check::{Access, Path, ProgramSet};
use std::alloc::{AllocError, Global};
use text_places::{SetText, line_number};

/// A set with its text and its paths, which are the nodes.
#[derive(Clone, Copy)]
pub struct Shown<'a> {
    pub text: &'a SetText<'a>,
    pub set: &'a ProgramSet,
    pub paths: &'a [Path],
}

// The letter of a branch that a path takes.
fn letter_of(takes_first: bool) -> &'static str
    ensures { result.now ≡ letter_of takes_first }
{
    if takes_first { "t" } else { "e" }
}

fn letters(alloc: Global, choices: &[bool]) -> Result<String, AllocError>
    ensures { IfOk result (λ text. string_bytes text ≡ flat_map letter_of choices.now) }
{
    let mut text = String::new(alloc);
    for choice in choices {
        text.push_str(letter_of(*choice))?;
    }
    Ok(text)
}

/// A letter for each branch of a path, `t` where it takes the first block and `e` else, behind a
/// colon; nothing where there is no branch.
pub fn branches_text(alloc: Global, choices: &[bool]) -> Result<String, AllocError>
    ensures { IfOk result (λ text. string_bytes text ≡ branches_text choices.now) }
{
    let [first, others @ ..] = choices else {
        return Ok(String::new(alloc));
    };
    let first = letter_of(*first);
    let others = letters(alloc, others)?;
    format!(in alloc; ":{first}{others}")
}

/// The name of a node: its program's, with a letter for each branch of the path.
pub fn node_name(alloc: Global, shown: Shown<'_>, node: usize) -> Result<String, AllocError>
    ensures { IfOk result (λ name. string_bytes name ≡ node_name (seen shown.entry) node) }
{
    let Some(path) = shown.paths.get(node) else {
        return format!(in alloc; "node {node}");
    };
    let branches = branches_text(alloc, path.choices.as_slice())?;
    let name = program_name(shown.set, path.program);
    format!(in alloc; "`{name}{branches}`")
}

/// The program of a node.
pub fn program_of(shown: Shown<'_>, node: usize) -> Option<usize>
    ensures { result ≡ program_of (seen shown.entry) node }
{
    let path = shown.paths.get(node)?;
    Some(path.program)
}

/// The access of a number of a node.
pub fn access_of(shown: Shown<'_>, node: usize, access: usize) -> Option<Access>
    ensures { result ≡ access_of (seen shown.entry) node access }
{
    let path = shown.paths.get(node)?;
    path.accesses.as_slice().get(access).copied()
}

// What is said of an access that is sure or not.
fn turns_by(sure: bool) -> &'static str
    ensures { result.now ≡ turns_by sure }
{
    if sure {
        ""
    } else {
        " in each turn of its `each`"
    }
}

/// What is said of an access that may be made in many turns, or in none.
pub fn turns_text(shown: Shown<'_>, node: usize, access: usize) -> &'static str
    ensures { result.now ≡ turns_text (seen shown.entry) node access }
{
    match access_of(shown, node, access) {
        Some(access) => turns_by(access.sure),
        None => "",
    }
}

/// Whether an access of a node stands in the body of an `each`.
pub fn is_in_body(shown: Shown<'_>, node: usize, access: usize) -> bool
    ensures { result ≡ is_in_body (seen shown.entry) node access }
{
    match access_of(shown, node, access) {
        Some(access) => !access.sure,
        None => false,
    }
}

/// Where the statement of an access stands.
pub fn access_place(shown: Shown<'_>, node: usize, access: usize) -> Option<usize>
    ensures found { IfSome result (IsAccessPlace (seen shown.entry) node access) }
    ensures none { IfNone result (HasNoAccess (seen shown.entry) node access) }
{
    let path = shown.paths.get(node)?;
    let access = path.accesses.as_slice().get(access)?;
    shown.text.statement_place(path.program, access.place)
}

/// An access of a node, with its statement and the line of that.
pub fn access_text(
    alloc: Global,
    shown: Shown<'_>,
    node: usize,
    access: usize,
) -> Result<String, AllocError>
    ensures { IfOk result (λ words. IsAccessText (seen shown.entry) node access
        (string_bytes words)) }
{
    let name = node_name(alloc, shown, node)?;
    let Some(place) = access_place(shown, node, access) else {
        return format!(in alloc; "access {access} of {name}, which it has not");
    };
    let statement = quoted_statement(alloc, shown.text, place)?;
    let line = line_number(shown.text.bytes(), place);
    format!(in alloc; "`{statement}` of {name} in line {line}")
}
