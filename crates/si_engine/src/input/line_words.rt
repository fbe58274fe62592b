//! Words of a line.
ghost use Rattle.std.specs.Prelude.{◌≡◌, ◌<◌, [], ◌∷◌, bytes_eq, length, IfOk, IfSome, MatchOption};
ghost use Rattle.si_engine.specs.Lines.{words_of};

use crate::input::lines::cut;
use prog_tree::same_bytes;
use smallvec::SmallVec;
use std::alloc::{AllocError, Global};
use std::default::MadeWith;
use std::marker::Model;

// How many words of a line are kept without an allocation.
const FEW_WORDS: usize = 8;

/// A word of a line. Contracts see its bytes.
#[derive(Drop)]
pub struct LineWord<'a> {
    bytes: &'a [u8],
}

impl<'a> Model for LineWord<'a> {
    ghost use Rattle.std.specs.Prelude.{List, ℕ};

    ghost Value = { List ℕ };

    ghost view = { λ w. w.bytes.now };
}

impl<'a> LineWord<'a> {
    pub fn new(bytes: &'a [u8]) -> Self
        ensures { result ≡ bytes.now }
    {
        LineWord { bytes }
    }

    pub fn as_bytes(&self) -> &'a [u8]
        ensures { result.now ≡ self.now }
    {
        self.bytes
    }

    // Whether it is such a text.
    pub(crate) fn is(&self, text: &[u8]) -> bool
        ensures { result ≡ bytes_eq self.now text.now }
    {
        same_bytes(self.bytes, text)
    }
}

// An unused place among words.
impl<'a> MadeWith<Global> for LineWord<'a> {
    fn made_with(_alloc: Global) -> LineWord<'a> {
        LineWord { bytes: &[] }
    }
}

/// The words of a line, in their order. Contracts see them.
#[derive(Drop)]
pub struct LineWords<'a> {
    words: SmallVec<LineWord<'a>, FEW_WORDS>,
}

impl<'a> Model for LineWords<'a> {
    ghost use Rattle.std.specs.Prelude.{List, ℕ};

    ghost Value = { List (List ℕ) };

    ghost view = { λ l. l.words.items };
}

impl<'a> LineWords<'a> {
    pub fn as_slice(&self) -> &[LineWord<'a>]
        ensures { result.now ≡ self.now }
    {
        self.words.as_slice()
    }
}

/// The first word of a line, and what stands behind it.
pub(crate) fn first_word(line: &[u8]) -> Option<(&[u8], &[u8])>
    ensures words { MatchOption result (words_of line.now ≡ [])
        (λ found. words_of line.now ≡ found.0.now ∷ words_of found.1.now) }
    ensures shorter { IfSome result (λ found. length found.1.now < length line.now) }
{
    let mut rest = line;
    while !rest.is_empty() {
        let (word, behind) = cut(rest, b' ');
        if !word.is_empty() {
            return Some((word, behind));
        }
        rest = behind;
    }
    None
}

/// The words of a line. Those of most lines need no allocation.
pub fn line_words(alloc: Global, line: &[u8]) -> Result<LineWords<'_>, AllocError>
    ensures { IfOk result (λ words. words ≡ words_of line.now) }
{
    let mut words = SmallVec::new(alloc);
    let mut rest = line;
    while let Some((word, behind)) = first_word(rest) {
        words.push(LineWord::new(word))?;
        rest = behind;
    }
    Ok(LineWords { words })
}
