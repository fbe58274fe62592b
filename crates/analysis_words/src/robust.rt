//! What a certificate shows of a robust set, in words.
ghost use Rattle.std.specs.Prelude.{◌≡◌, IfOk, string_bytes};
ghost use Rattle.std.specs.List.{range_with_len};
ghost use Rattle.analysis_words.specs.Nodes.{seen, sight_of};
ghost use Rattle.analysis_words.specs.Counts.{apart_count, AreCountsOf};
ghost use Rattle.analysis_words.specs.Robust.{entries_text, IsCoveringText, IsMostText};
ghost use Rattle.analysis_words.specs.Robust.{levels_text, questions_text, reasons_text};
ghost use Rattle.analysis_words.specs.Robust.{SaysRobust};

use crate::entry_counts::{Covering, EntryCounts};
use crate::levels::level_list;
use crate::limits::MAX_LEVELS;
use crate::shared_words::more_text;
use crate::shown::{Shown, access_text};
use crate::shown_set::ShownSet;
use prog_check::ProgramSet;
use prog_paths::question_count;
use robust_cert::{Certificate, Entries};
use std::alloc::{AllocError, Global};
use std::thread::Threads;

fn reasons_text(alloc: Global, apart: usize, covered: usize) -> Result<String, AllocError>
    ensures { IfOk result (λ text. string_bytes text ≡ reasons_text apart covered) }
{
    format!(in alloc; "{apart} never do, {covered} clash where they do")
}

// How many questions have each of the two reasons.
fn entries_text(
    alloc: Global,
    certificate: &Certificate,
    counts: &EntryCounts,
) -> Result<String, AllocError>
    requires { counts.now.apart ≡ apart_count certificate.now.entries }
    ensures { IfOk result (λ text. string_bytes text ≡ entries_text certificate.now) }
{
    let covered = certificate.entries.len().saturating_sub(counts.apart);
    reasons_text(alloc, counts.apart, covered)
}

// How many covers an access takes part in, and which it is.
fn covering_text(alloc: Global, shown: Shown<'_>, covering: Covering) -> Result<String, AllocError>
    ensures { IfOk result (λ text.
        IsCoveringText (seen shown.entry) covering (string_bytes text)) }
{
    let Covering {
        node,
        access,
        count,
    } = covering;
    let access = access_text(alloc, shown, node, access)?;
    format!(in alloc; " ({count} of them by {access})")
}

// The access that takes part in most covers.
fn most_text(
    alloc: Global,
    shown: Shown<'_>,
    entries: &Entries,
    counts: &EntryCounts,
) -> Result<String, AllocError>
    requires { AreCountsOf shown.paths.now entries.now counts.now }
    ensures { IfOk result (λ text.
        IsMostText (seen shown.entry) entries.now (string_bytes text)) }
{
    match counts.most_covering() {
        Some(covering) => covering_text(alloc, shown, covering),
        None => Ok(String::new(alloc)),
    }
}

// The first nodes, so many.
fn first_nodes(alloc: Global, count: usize) -> Result<Vec<usize>, AllocError>
    ensures { IfOk result (λ nodes. nodes.items ≡ range_with_len 0 count) }
{
    let mut nodes = Vec::new(alloc);
    for node in 0..count {
        nodes.push(node)?;
    }
    Ok(nodes)
}

// The levels of the first nodes, and how many nodes there are more.
fn levels_text(
    alloc: Global,
    shown: Shown<'_>,
    certificate: &Certificate,
) -> Result<String, AllocError>
    ensures { IfOk result (λ text. string_bytes text
        ≡ levels_text (seen shown.entry) certificate.now) }
{
    let nodes = shown.paths.len();
    let told = first_nodes(alloc, nodes.min(MAX_LEVELS))?;
    let first = level_list(alloc, shown, certificate, &told)?;
    let more = more_text(alloc, nodes.saturating_sub(MAX_LEVELS))?;
    format!(in alloc; "{first}{more}")
}

// How many questions there are, which reasons they have, and how many are left for the levels.
fn questions_text(
    alloc: Global,
    certificate: &Certificate,
    counts: &EntryCounts,
    asked: usize,
    most: &str,
) -> Result<String, AllocError>
    requires { counts.now.apart ≡ apart_count certificate.now.entries }
    ensures { IfOk result (λ text. string_bytes text
        ≡ questions_text certificate.now asked most.now) }
{
    let entries = entries_text(alloc, certificate, counts)?;
    let left = asked.saturating_sub(certificate.entries.len());
    format!(in alloc;
        "each run of this set has a serial order: of {asked} pairs of accesses that could touch one row, \
        {entries}{most}, and {left} are in order by the levels\n"
    )
}

// What is said of a set whose nodes are these.
fn sentence(
    rt: &(impl Threads + Sync),
    alloc: Global,
    shown: Shown<'_>,
    certificate: &Certificate,
) -> Result<String, AllocError>
    ensures { IfOk result (λ words. SaysRobust (seen shown.entry) certificate.now
        (string_bytes words)) }
{
    let counts = EntryCounts::of(rt, alloc, shown.paths, &certificate.entries)?;
    let most = most_text(alloc, shown, &certificate.entries, &counts)?;
    let asked = question_count(shown.paths);
    let questions = questions_text(alloc, certificate, &counts, asked, &most)?;
    let levels = levels_text(alloc, shown, certificate)?;
    format!(in alloc; "{questions}levels: {levels}\n")
}

/// What a certificate shows of its set, in two lines: how many questions there are, which reasons
/// they have, and the levels of the nodes. Threads count the entries of a long one.
pub fn robust_words(
    rt: &(impl Threads + Sync),
    alloc: Global,
    text: &[u8],
    set: &ProgramSet,
    certificate: &Certificate,
) -> Result<String, AllocError>
    ensures { IfOk result (λ words. SaysRobust (sight_of text.now set.now)
        certificate.now (string_bytes words)) }
{
    let whole = ShownSet::new(alloc, text, set)?;
    let shown = whole.shown();
    sentence(rt, alloc, shown, certificate)
}
