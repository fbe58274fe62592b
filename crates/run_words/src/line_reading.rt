//! Words of a line, read just far enough to name them.
ghost use Rattle.std.specs.Prelude.{IfOk, string_bytes};
ghost use Rattle.run_words.specs.Shown.{IsShownWord};

use crate::limits::MAX_WORD;
use si_engine::{line_words, without_return};
use std::alloc::{AllocError, Global};
use text_places::{as_text, before, line_at, visible_text};

/// The words of a line, which spaces part; empty where one is no text.
pub fn words_of(alloc: Global, line: &[u8]) -> Result<Vec<&str>, AllocError> {
    let found = line_words(alloc, line)?;
    let mut words = Vec::with_capacity(alloc, found.as_slice().len())?;
    for word in found.as_slice() {
        words.push(as_text(word.as_bytes()))?;
    }
    Ok(words)
}

/// The line that begins at a place, without what ends it.
pub fn line_bytes(part: &[u8], front: usize) -> &[u8] {
    without_return(line_at(part, front))
}

/// A word as people are told of it: of a long one a first part.
pub fn shown(alloc: Global, word: &str) -> Result<String, AllocError>
    ensures { IfOk result (λ text. IsShownWord word.now (string_bytes text)) }
{
    let end = word.floor_char_boundary(MAX_WORD);
    visible_text(alloc, before(word.as_bytes(), end))
}
