//! What a repair of a whole set keeps apart.
ghost use Rattle.std.specs.Prelude.{◌≡◌, IfOk, flat_map, string_bytes};
ghost use Rattle.prog_tree.specs.Tree.{draft_tree};
ghost use Rattle.analysis_words.specs.Left.{further_text, left_text, pair_count_text, pair_text};

use crate::limits::MAX_FURTHER;
use crate::pairs::quoted_name;
use crate::shared_words::{more_text, other_run};
use prog_check::ProgramSet;
use si_repair::Pair;
use std::alloc::{AllocError, Global};
use text_places::before;

// The two programs of a pair.
fn pair_text(alloc: Global, set: &ProgramSet, pair: Pair) -> Result<String, AllocError>
    ensures { IfOk result (λ text. string_bytes text ≡ pair_text (draft_tree set.now) pair) }
{
    let first = quoted_name(alloc, set, pair.from)?;
    let second = quoted_name(alloc, set, pair.to)?;
    let other = other_run(pair.from, pair.to);
    format!(in alloc; "{first} and {other}{second}")
}

// A pair that is named behind another.
fn further_pair(alloc: Global, set: &ProgramSet, pair: Pair) -> Result<String, AllocError>
    ensures { IfOk result (λ text. string_bytes text ≡ further_text (draft_tree set.now) pair) }
{
    let pair = pair_text(alloc, set, pair)?;
    format!(in alloc; ", {pair}")
}

fn further_pairs(alloc: Global, set: &ProgramSet, pairs: &[Pair]) -> Result<String, AllocError>
    ensures { IfOk result (λ text. string_bytes text
        ≡ flat_map (further_text (draft_tree set.now)) pairs.now) }
{
    let mut text = String::new(alloc);
    for pair in pairs {
        let further = further_pair(alloc, set, *pair)?;
        text.push_str(&further)?;
    }
    Ok(text)
}

// How many pairs there are.
fn pair_count_text(alloc: Global, count: usize) -> Result<String, AllocError>
    ensures { IfOk result (λ text. string_bytes text ≡ pair_count_text count) }
{
    if count == 1 {
        return format!(in alloc; "one pair of programs has");
    }
    format!(in alloc; "{count} pairs of programs have")
}

/// How many pairs of programs a repair keeps apart, and which; nothing where there is none.
pub fn left_text(alloc: Global, set: &ProgramSet, pairs: &[Pair]) -> Result<String, AllocError>
    ensures { IfOk result (λ text. string_bytes text ≡ left_text (draft_tree set.now) pairs.now) }
{
    let [first, others @ ..] = pairs else {
        return Ok(String::new(alloc));
    };
    let count = pair_count_text(alloc, pairs.len())?;
    let first = pair_text(alloc, set, *first)?;
    let further = further_pairs(alloc, set, before(others, MAX_FURTHER))?;
    let more = more_text(alloc, others.len().saturating_sub(MAX_FURTHER))?;
    format!(in alloc; "for the whole set {count} to be kept apart: {first}{further}{more}\n")
}
