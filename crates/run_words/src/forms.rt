//! The forms that lines have.

use si_engine::{MAX_STEPS, number, unsigned};
use std::alloc::{AllocError, Global};

/// What the lines of a part are.
#[derive(Clone, Copy, Debug, PartialEq, Eq)]
pub enum PartKind {
    Script,
    Records,
    Jobs,
}

/// The words with which a line begins.
pub fn first_words(kind: PartKind) -> &'static [&'static str] {
    match kind {
        PartKind::Script => &[
            "row", "begin", "begin-at", "step", "commit", "abort", "vacuum",
        ],
        PartKind::Records => &["row", "record"],
        PartKind::Jobs => &["row", "job"],
    }
}

/// Whether a line of a part may begin with a word.
pub fn may_begin(kind: PartKind, first: &str) -> bool {
    let words = first_words(kind);
    (&*words).contains(&first)
}

/// Whether a line of a script that begins with a word is an event, or several: all but rows are.
pub fn is_event(first: &[u8]) -> bool {
    let words = first_words(PartKind::Script);
    first != "row".as_bytes() && (&*words).iter().any(|word| word.as_bytes() == first)
}

/// The command that reads lines which begin with a word, of such as not every list has.
pub fn command_of(first: &str) -> Option<&'static str> {
    match first {
        "row" => None,
        _ if is_event(first.as_bytes()) => Some("run"),
        _ if may_begin(PartKind::Records, first) => Some("audit"),
        _ if may_begin(PartKind::Jobs, first) => Some("work"),
        _ => None,
    }
}

// What the lines are that begin with a word.
#[derive(Clone, Copy, Debug)]
struct LineForm {
    words_before_numbers: usize,
    // The form, but for the limits of its numbers.
    text: &'static str,
}

fn line_form(first: &str) -> LineForm {
    let (words_before_numbers, text) = match first {
        "row" => (2, "`row TABLE KEY = VALUE`, or `row TABLE KEY KEY = VALUE`"),
        "begin" => (
            2,
            "`begin PROGRAM`, with a number for each parameter behind it",
        ),
        "begin-at" => (
            3,
            "`begin-at START PROGRAM`, with a number for each parameter behind it; START is a number of commits",
        ),
        "step" => (1, "`step INSTANCE`, or `step INSTANCE TIMES`"),
        "commit" => (1, "`commit INSTANCE`"),
        "abort" => (1, "`abort INSTANCE`"),
        "vacuum" => (1, "`vacuum`, alone"),
        "record" => (2, "`record PROGRAM ARGUMENTS at START gives REPLIES`"),
        "job" => (3, "`job RETRIES PROGRAM ARGUMENTS`"),
        _ => (1, ""),
    };
    LineForm {
        words_before_numbers,
        text,
    }
}

/// What stands in a line that begins with a word.
pub fn form_of(alloc: Global, first: &str) -> Result<String, AllocError> {
    let form = line_form(first).text;
    match first {
        "step" => format!(in alloc; "{form} with 1 to {MAX_STEPS} times"),
        "job" => {
            let most = u32::MAX;
            format!(in alloc; "{form} with 0 to {most} retries")
        }
        _ => format!(in alloc; "{form}"),
    }
}

// Whether a word is a number that may stand behind another word: one of commits behind `at`.
fn is_number(word: &str, before: &str) -> bool {
    if before == "at" {
        unsigned(word.as_bytes()).is_some()
    } else {
        number(word.as_bytes()).is_some()
    }
}

fn is_retries(word: &str) -> bool {
    number(word.as_bytes()).is_some_and(|number| u32::try_from(number).is_ok())
}

// The first word from a place on that stands in the place of a number and is none.
fn no_number_from<'a>(words: &[&'a str], start: usize) -> Option<&'a str> {
    let mut before = "";
    for word in words.get(start..).unwrap_or(&[]) {
        let word: &'a str = *word;
        let is_sign = word == "=" || (word == "at" || word == "gives");
        if !is_sign && !is_number(word, before) {
            return Some(word);
        }
        before = word;
    }
    None
}

/// The first word of a line that stands in the place of a number and is none.
pub fn no_number<'a>(words: &[&'a str]) -> Option<&'a str> {
    match words {
        ["job", retries, ..] if !is_retries(*retries) => Some(*retries),
        ["begin-at", start, ..] if !is_number(*start, "at") => Some(*start),
        ["vacuum", ..] => None,
        [first, ..] => no_number_from(words, line_form(*first).words_before_numbers),
        [] => None,
    }
}

/// The name in a line: the last word before the numbers.
pub fn name_in<'a>(words: &[&'a str]) -> Option<&'a str> {
    let [first, ..] = words else {
        return None;
    };
    let count = line_form(*first).words_before_numbers;
    words.get(count.saturating_sub(1)).copied()
}
