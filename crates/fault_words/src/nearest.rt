//! The name that was meant.
ghost use Rattle.std.specs.Prelude.{◌≡◌, Contains, IfOk, IfSome, map, option_map, string_bytes};
ghost use Rattle.text_places.specs.Listing.{listed};
ghost use Rattle.fault_words.specs.Nearest.{IsMeant, TellsKnown, all_text, edits, quoted};

use crate::limits::{MAX_EDITS, MAX_MEANT};
use std::alloc::{AllocError, Global};
use strsim::levenshtein;
use text_places::push_listed;

fn edits(alloc: Global, word: &str, name: &str) -> Result<usize, AllocError>
    ensures { IfOk result (λ count. count ≡ edits word.now name.now) }
{
    levenshtein(alloc, word, name)
}

/// The first of the names with the fewest edits from a word, where these are few. Counting takes as
/// many steps as both lengths multiplied, so it is not done for a word that is too long.
pub fn nearest_name<'a>(
    alloc: Global,
    word: &str,
    names: &[&'a str],
) -> Result<Option<&'a str>, AllocError>
    ensures among { IfOk result (λ found. IfSome found (Contains names.now)) }
    ensures meant { IfOk result (λ found. IsMeant word.now (map (λ name. name.now) names.now)
        (option_map (λ name. name.now) found)) }
{
    if word.len() > MAX_MEANT {
        return Ok(None);
    }
    let mut best = None;
    let mut fewest = MAX_EDITS.min(word.len());
    for name in names {
        let count = edits(alloc, word, name)?;
        if count < fewest {
            fewest = count;
            best = Some(*name);
        }
    }
    Ok(best)
}

fn quoted(alloc: Global, name: &str) -> Result<String, AllocError>
    ensures { IfOk result (λ text. string_bytes text ≡ quoted name.now) }
{
    format!(in alloc; "`{name}`")
}

// Names between backquotes, with commas between them.
fn quoted_list(alloc: Global, names: &[&str]) -> Result<String, AllocError>
    ensures { IfOk result (λ list. string_bytes list
        ≡ listed (map quoted (map (λ name. name.now) names.now))) }
{
    let mut list = String::new(alloc);
    for name in names {
        let name = quoted(alloc, name)?;
        push_listed(&mut list, &name)?;
    }
    Ok(list)
}

// All of the names.
fn all_text(alloc: Global, names: &[&str]) -> Result<String, AllocError>
    ensures { IfOk result (λ text. string_bytes text
        ≡ all_text (map (λ name. name.now) names.now)) }
{
    match names {
        [] => format!(in alloc; "there is none"),
        [_, ..] => {
            let known = quoted_list(alloc, names)?;
            format!(in alloc; "known are {known}")
        }
    }
}

/// The nearest of the names to a word that is none of them, or all of the names.
pub fn known_names(alloc: Global, word: &str, names: &[&str]) -> Result<String, AllocError>
    ensures { IfOk result (λ text. TellsKnown word.now (map (λ name. name.now) names.now)
        (string_bytes text)) }
{
    match nearest_name(alloc, word, names)? {
        Some(near) => format!(in alloc; "the nearest name is `{near}`"),
        None => all_text(alloc, names),
    }
}
