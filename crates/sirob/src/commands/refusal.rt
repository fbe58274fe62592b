//! The text that refuses a set.
ghost use Rattle.std.specs.Prelude.{◌≡◌, IfOk, string_bytes};
ghost use Rattle.prog_tree.specs.Tree.{draft_tree};
ghost use Rattle.si_engine.specs.LastLine.{spaced_numbers};
ghost use Rattle.sirob.specs.Refusal.{path_name, path_params, access_text, sample_numbers};
ghost use Rattle.sirob.specs.Refusal.{sample_text, exposure_text, refusal_text};

use analysis_words::{branches_text, node_of};
use conflict_pairs::Question;
use dep_graph::{Danger, Exposure};
use fault_words::{program_name, program_params};
use order_facts::Sample;
use prog_check::{Path, ProgramSet};
use prog_paths::paths;
use std::alloc::{AllocError, Global};
use text_places::bracketed;

// The name of a node: that of its path's program, with a letter for each branch.
fn path_name(
    alloc: Global,
    set: &ProgramSet,
    paths: &[Path],
    node: usize,
) -> Result<String, AllocError>
    ensures { IfOk result (λ name. string_bytes name
        ≡ path_name (draft_tree set.now) paths.now node) }
{
    let Some(path) = paths.get(node) else {
        return Ok(String::new(alloc));
    };
    let program = program_name(set, path.program);
    let branches = branches_text(alloc, path.choices.as_slice())?;
    format!(in alloc; "{program}{branches}")
}

// How many parameters the program of a node's path has.
fn path_params(set: &ProgramSet, paths: &[Path], node: usize) -> usize
    ensures { result ≡ path_params (draft_tree set.now) paths.now node }
{
    match paths.get(node) {
        Some(path) => program_params(set.draft(), path.program).len(),
        None => 0,
    }
}

// The numbers that a sample gives the parameters of the first or of the second of its nodes.
fn sample_numbers(
    alloc: Global,
    sample: &Sample,
    is_first: bool,
    count: usize,
) -> Result<Vec<i64>, AllocError>
    ensures { IfOk result (λ numbers. numbers.items ≡ sample_numbers sample.now is_first count) }
{
    let mut numbers = Vec::with_capacity(alloc, count)?;
    for i in 0..count {
        numbers.push(sample.get(node_of(is_first, i)))?;
    }
    Ok(numbers)
}

// The parameters of both nodes of a question, as its sample has them.
fn sample_text(
    alloc: Global,
    sample: &Sample,
    mine: usize,
    theirs: usize,
) -> Result<String, AllocError>
    ensures { IfOk result (λ text. string_bytes text ≡ sample_text sample.now mine theirs) }
{
    let mine = sample_numbers(alloc, sample, true, mine)?;
    let mine = bracketed(alloc, mine.as_slice())?;
    let theirs = sample_numbers(alloc, sample, false, theirs)?;
    let theirs = bracketed(alloc, theirs.as_slice())?;
    format!(in alloc; "{mine} {theirs}")
}

// An access of a node.
fn access_text(alloc: Global, node: usize, name: &str, access: usize) -> Result<String, AllocError>
    ensures { IfOk result (λ text. string_bytes text ≡ access_text node name.now access) }
{
    format!(in alloc; "{node}:{name} {access}")
}

// An exposed question with its sample.
fn exposure_text(
    alloc: Global,
    set: &ProgramSet,
    paths: &[Path],
    exposure: &Exposure,
) -> Result<String, AllocError>
    ensures { IfOk result (λ text. string_bytes text
        ≡ exposure_text (draft_tree set.now) paths.now exposure.now) }
{
    let Question { x, a, y, b, .. } = exposure.question;
    let mine = path_name(alloc, set, paths, x)?;
    let theirs = path_name(alloc, set, paths, y)?;
    let first = access_text(alloc, x, mine.as_str(), a)?;
    let second = access_text(alloc, y, theirs.as_str(), b)?;
    let my_params = path_params(set, paths, x);
    let their_params = path_params(set, paths, y);
    let sample = sample_text(alloc, &exposure.sample, my_params, their_params)?;
    format!(in alloc; "{first}, {second}, {sample}")
}

// Nodes, each behind a space.
fn nodes_text(alloc: Global, nodes: &[usize]) -> Result<String, AllocError>
    ensures { IfOk result (λ text. string_bytes text ≡ spaced_numbers nodes.now) }
{
    let mut text = String::new(alloc);
    for node in nodes {
        write!(text, " {node}")?;
    }
    Ok(text)
}

/// The refusal of a set by a dangerous structure: its two vulnerable edges, and the way back.
pub fn refusal_text(alloc: Global, set: &ProgramSet, danger: &Danger) -> Result<String, AllocError>
    ensures { IfOk result (λ text. string_bytes text
        ≡ refusal_text (draft_tree set.now) danger.now) }
{
    let paths = paths(alloc, set)?;
    let first = exposure_text(alloc, set, paths.as_slice(), &danger.first)?;
    let second = exposure_text(alloc, set, paths.as_slice(), &danger.second)?;
    let back = nodes_text(alloc, danger.back.as_slice())?;
    format!(in alloc; "refused\nfirst {first}\nsecond {second}\nback{back}\n")
}
