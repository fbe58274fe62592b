//! Instances of programs with the numbers that samples give their parameters.
ghost use Rattle.std.specs.Prelude.{◌≡◌, IfOk, string_bytes};
ghost use Rattle.analysis_words.specs.Instances.{given_text, given_from, instance_text, node_of};
ghost use Rattle.analysis_words.specs.Instances.{numbers_along, numbers_text, opening};
ghost use Rattle.analysis_words.specs.Instances.{params_along};
ghost use Rattle.analysis_words.specs.Nodes.{seen};

use crate::shown::{Shown, node_name};
use fault_words::program_params;
use order_facts::{Node, Sample};
use prog_tree::Name;
use std::alloc::{AllocError, Global};

/// A parameter of the first or of the second instance.
pub fn node_of(is_first: bool, number: usize) -> Node
    ensures { result ≡ node_of is_first number }
{
    if is_first {
        Node::Mine(number)
    } else {
        Node::Theirs(number)
    }
}

// What stands before the parameter of a number.
fn opening(number: usize) -> &'static str
    ensures { result.now ≡ opening number }
{
    if number == 0 { " with (" } else { ", " }
}

// A parameter with the number that a sample gives it.
fn given_text(
    alloc: Global,
    sample: &Sample,
    is_first: bool,
    number: usize,
    name: &Name,
) -> Result<String, AllocError>
    ensures { IfOk result (λ text. string_bytes text
        ≡ given_text sample.now is_first number name.now) }
{
    let opening = opening(number);
    let value = sample.get(node_of(is_first, number));
    format!(in alloc; "{opening}{name} = {value}")
}

// All parameters with their numbers, from the bracket on that opens.
fn given_list(
    alloc: Global,
    sample: &Sample,
    is_first: bool,
    params: &[Name],
) -> Result<String, AllocError>
    ensures { IfOk result (λ text. string_bytes text
        ≡ given_from sample.now is_first 0 params.now) }
{
    let mut text = String::new(alloc);
    for (number, name) in params.iter().enumerate() {
        let given = given_text(alloc, sample, is_first, number, name)?;
        text.push_str(&given)?;
    }
    Ok(text)
}

// Each parameter with its number, in brackets; nothing where there is none.
fn numbers_text(
    alloc: Global,
    sample: &Sample,
    is_first: bool,
    params: &[Name],
) -> Result<String, AllocError>
    ensures { IfOk result (λ text. string_bytes text
        ≡ numbers_text sample.now is_first params.now) }
{
    let [_, ..] = params else {
        return Ok(String::new(alloc));
    };
    let listed = given_list(alloc, sample, is_first, params)?;
    format!(in alloc; "{listed})")
}

// The parameters of a node's program.
fn params_along<'a>(shown: Shown<'a>, node: usize) -> &'a [Name]
    ensures { result.now ≡ params_along (seen shown.entry) node }
{
    match shown.paths.get(node) {
        Some(path) => program_params(shown.set.draft(), path.program),
        None => &[],
    }
}

/// Each parameter of a node's program with the number that a sample gives it in the first or the
/// second instance.
pub fn numbers_along(
    alloc: Global,
    shown: Shown<'_>,
    sample: &Sample,
    is_first: bool,
    node: usize,
) -> Result<String, AllocError>
    ensures { IfOk result (λ text. string_bytes text
        ≡ numbers_along (seen shown.entry) sample.now is_first node) }
{
    numbers_text(alloc, sample, is_first, params_along(shown, node))
}

/// An instance of a node in a sample.
pub fn instance_text(
    alloc: Global,
    shown: Shown<'_>,
    sample: &Sample,
    is_first: bool,
    node: usize,
) -> Result<String, AllocError>
    ensures { IfOk result (λ text. string_bytes text
        ≡ instance_text (seen shown.entry) sample.now is_first node) }
{
    let name = node_name(alloc, shown, node)?;
    let numbers = numbers_along(alloc, shown, sample, is_first, node)?;
    format!(in alloc; "{name}{numbers}")
}
