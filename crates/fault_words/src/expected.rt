//! What could stand at a place of a text: each word and sign is tried there.
ghost use Rattle.std.specs.Prelude.{◌≡◌, map, true};
ghost use Rattle.fault_words.specs.Reserved.{have_each_sign};

use crate::limits::MAX_TRIED;
use prog_text::{TextFault, parse, reserved_words};
use std::alloc::{AllocError, Global};
use text_places::push_listed;

/// A name, as it is tried.
pub const NAME: &str = "NAME";

/// A number, as it is tried.
pub const NUMBER: &str = "1";

// A name, a number, and each sign of the language.
const SIGNS: [&str; 21] = [
    NAME, NUMBER, "(", ")", "[", "]", "{", "}", ",", ";", "=", "+", "-", "*", "..", "<", "<=", ">",
    ">=", "==", "!=",
];

// What is tried beside the reserved words.
fn tried_signs() -> &'static [&'static str]
    ensures { have_each_sign (map (λ word. word.now) result.now) ≡ true }
{
    &SIGNS
}

// Whether a word may follow a text, which is left as it was.
fn may_follow(alloc: Global, text: &mut Vec<u8>, word: &str) -> Result<bool, AllocError> {
    let len = text.len();
    text.extend_from_slice(word.as_bytes())?;
    let parsed = parse(alloc, text);
    text.truncate(len);
    match parsed {
        Ok(_) | Err(TextFault::UnexpectedEnd { .. }) => Ok(true),
        Err(TextFault::Memory) => Err(AllocError),
        Err(_) => Ok(false),
    }
}

// A tried word as people are told of it.
fn shown(alloc: Global, word: &str) -> Result<String, AllocError> {
    if word == NAME {
        return format!(in alloc; "a name");
    }
    if word == NUMBER {
        return format!(in alloc; "a number");
    }
    format!(in alloc; "`{word}`")
}

// The signs with which a text could go on.
fn possible_signs(alloc: Global, text: &mut Vec<u8>) -> Result<Vec<&'static str>, AllocError> {
    let mut list = Vec::new(alloc);
    for sign in tried_signs() {
        if may_follow(alloc, text, sign)? {
            list.push(*sign)?;
        }
    }
    Ok(list)
}

/// The signs and the words with which a text could go on: none where that is not known.
pub fn possible(alloc: Global, before: &[u8]) -> Result<Vec<&'static str>, AllocError> {
    if before.len() > MAX_TRIED {
        return Ok(Vec::new(alloc));
    }
    let mut text = Vec::new(alloc);
    text.extend_from_slice(before)?;
    text.push(b' ')?;
    let mut list = possible_signs(alloc, &mut text)?;
    for (word, _sign) in reserved_words() {
        if may_follow(alloc, &mut text, word)? {
            list.push(*word)?;
        }
    }
    Ok(list)
}

/// Words that were tried, as people are told of them.
pub fn listed_words(alloc: Global, words: &[&str]) -> Result<String, AllocError> {
    let mut list = String::new(alloc);
    for word in words {
        push_listed(&mut list, &shown(alloc, word)?)?;
    }
    Ok(list)
}
