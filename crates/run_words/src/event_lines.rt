//! The lines on which the events of a script stand.

use crate::forms::is_event;
use si_engine::{cut, unsigned};
use text_places::behind;

/// How far a script was read to find the line of an event.
#[derive(Clone, Copy)]
pub struct EventLines {
    // Where the first line begins that was not read.
    place: usize,
    line: usize,
    // How many events stand on the lines so far.
    events: usize,
}

// The first word of a line, and what stands behind it.
fn cut_word(line: &[u8]) -> (&[u8], &[u8]) {
    cut(line.trim_ascii(), b' ')
}

// How many steps are done by a line with this behind its `step`.
fn step_count(words: &[u8]) -> usize {
    let (_instance, rest) = cut_word(words);
    if rest.is_empty() {
        return 1;
    }
    let (times, _) = cut_word(rest);
    unsigned(times).unwrap_or(1) as usize
}

// How many events a line of a script is.
fn event_count(line: &[u8]) -> usize {
    let (word, rest) = cut_word(line);
    match word {
        b"step" => step_count(rest),
        _ if is_event(word) => 1,
        _ => 0,
    }
}

impl EventLines {
    /// Nothing was read.
    pub fn new() -> Self {
        EventLines {
            place: 0,
            line: 0,
            events: 0,
        }
    }

    /// The line of an event, which is numbered from 0, and no earlier one than that asked for last.
    pub fn line_of(&mut self, part: &[u8], event: usize) -> usize {
        let mut rest = behind(part, self.place);
        while event >= self.events && !rest.is_empty() {
            let (line, after) = cut(rest, b'\n');
            self.line = self.line.saturating_add(1);
            self.events = self.events.saturating_add(event_count(line));
            rest = after;
        }
        self.place = part.len().saturating_sub(rest.len());
        self.line
    }
}
