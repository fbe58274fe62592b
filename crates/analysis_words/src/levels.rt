//! The numbers that a certificate tells of its nodes.
ghost use Rattle.std.specs.Prelude.{◌≡◌, IfOk, string_bytes};
ghost use Rattle.robust_cert.specs.Accepted.{level_of};
ghost use Rattle.analysis_words.specs.Nodes.{seen};
ghost use Rattle.analysis_words.specs.Saying.{level_list, level_text, number_at};

use crate::shown::{Shown, node_name};
use robust_cert::Certificate;
use std::alloc::{AllocError, Global};
use text_places::push_listed;

/// The number of a list at a node; one that has none counts as 0.
pub fn number_at(numbers: &[u32], node: usize) -> u32
    ensures { result ≡ number_at numbers.now node }
{
    numbers.get(node).copied().unwrap_or(0)
}

fn level_of(certificate: &Certificate, node: usize) -> u32
    ensures { result ≡ level_of certificate.now node }
{
    number_at(certificate.levels.as_slice(), node)
}

// A level and the node that has it.
fn level_text(
    alloc: Global,
    shown: Shown<'_>,
    certificate: &Certificate,
    node: usize,
) -> Result<String, AllocError>
    ensures { IfOk result (λ text. string_bytes text
        ≡ level_text (seen shown.entry) certificate.now node) }
{
    let name = node_name(alloc, shown, node)?;
    let level = level_of(certificate, node);
    format!(in alloc; "{level} of {name}")
}

/// The levels of nodes, with commas between them.
pub fn level_list(
    alloc: Global,
    shown: Shown<'_>,
    certificate: &Certificate,
    nodes: &[usize],
) -> Result<String, AllocError>
    ensures { IfOk result (λ text. string_bytes text
        ≡ level_list (seen shown.entry) certificate.now nodes.now) }
{
    let mut text = String::new(alloc);
    for node in nodes {
        let level = level_text(alloc, shown, certificate, *node)?;
        push_listed(&mut text, &level)?;
    }
    Ok(text)
}
