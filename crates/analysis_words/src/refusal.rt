//! The refusal of a set in words.
ghost use Rattle.std.specs.Prelude.{IfNone, IfOk, IfSome, string_bytes};
ghost use Rattle.analysis_words.specs.Nodes.{seen, sight_of};
ghost use Rattle.analysis_words.specs.Refusing.{LacksDanger, ShowsBoth, ShowsDanger, ShowsOne};
ghost use Rattle.analysis_words.specs.Refusing.{ShowsRefusal};

use crate::advice::{advice, twin_advice};
use crate::edges::{edge_words, is_repeated, twin_words};
use crate::left::left_text;
use crate::shown::Shown;
use crate::shown_set::ShownSet;
use crate::ways::ways_of;
use dep_graph::Danger;
use prog_check::ProgramSet;
use si_repair::Plan;
use std::alloc::{AllocError, Global};

const NO_ORDER: &str =
    "a run of this set may have no serial order, since two changes in a row can be missed\n";

// Both edges of a danger, and what follows.
fn both_words(
    alloc: Global,
    shown: Shown<'_>,
    danger: &Danger,
) -> Result<Option<String>, AllocError>
    ensures said { IfOk result (λ said. IfSome said (λ words. ShowsBoth (seen shown.entry)
        danger.now (string_bytes words))) }
    ensures none { IfOk result (λ said. IfNone said (LacksDanger (seen shown.entry) danger.now)) }
{
    let Some(first) = edge_words(alloc, shown, &danger.first)? else {
        return Ok(None);
    };
    let Some(second) = edge_words(alloc, shown, &danger.second)? else {
        return Ok(None);
    };
    let advice = advice(alloc, shown, danger)?;
    let words = format!(in alloc; "{NO_ORDER}{first}and\n{second}{advice}")?;
    Ok(Some(words))
}

// The edge of a danger that is both, and what follows.
fn one_words(alloc: Global, shown: Shown<'_>, danger: &Danger) -> Result<Option<String>, AllocError>
    ensures said { IfOk result (λ said. IfSome said (λ words. ShowsOne (seen shown.entry) danger.now
        (string_bytes words))) }
    ensures none { IfOk result (λ said. IfNone said (LacksDanger (seen shown.entry) danger.now)) }
{
    let Some(edge) = twin_words(alloc, shown, &danger.first)? else {
        return Ok(None);
    };
    let advice = twin_advice(alloc, shown, danger)?;
    let words = format!(in alloc; "{NO_ORDER}{edge}{advice}")?;
    Ok(Some(words))
}

// A danger, and what follows.
fn danger_words(
    alloc: Global,
    shown: Shown<'_>,
    danger: &Danger,
) -> Result<Option<String>, AllocError>
    ensures said { IfOk result (λ said. IfSome said (λ words. ShowsDanger (seen shown.entry)
        danger.now (string_bytes words))) }
    ensures none { IfOk result (λ said. IfNone said (LacksDanger (seen shown.entry) danger.now)) }
{
    if is_repeated(alloc, shown, danger)? {
        return one_words(alloc, shown, danger);
    }
    both_words(alloc, shown, danger)
}

/// Why a set is refused, by its least dangerous structure: its edges with their statements, how the
/// way back closes, the pairs of programs that a repair by this plan keeps apart, and which repairs
/// go through; nothing where the statements are not found in the set's text.
pub fn refusal_words(
    alloc: Global,
    text: &[u8],
    set: &ProgramSet,
    danger: &Danger,
    plan: &Plan,
) -> Result<Option<String>, AllocError>
    ensures said { IfOk result (λ said. IfSome said (λ words. ShowsRefusal
        (sight_of text.now set.now) danger.now plan.now.pairs (string_bytes words))) }
    ensures none { IfOk result (λ said. IfNone said
        (LacksDanger (sight_of text.now set.now) danger.now)) }
{
    let whole = ShownSet::new(alloc, text, set)?;
    let shown = whole.shown();
    let Some(front) = danger_words(alloc, shown, danger)? else {
        return Ok(None);
    };
    let left = left_text(alloc, set, plan.pairs.as_slice())?;
    let ways = ways_of(alloc, set, plan)?;
    let words = format!(in alloc; "{front}{left}{ways}")?;
    Ok(Some(words))
}
