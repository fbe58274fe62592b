//! The words, blanks and comments of a text that may have any fault: nothing is refused here.
ghost use Rattle.std.specs.Prelude.{◌≡◌, ◌≤◌, length, IfOk};
ghost use Rattle.std.specs.List.{prefix_len};
ghost use Rattle.prog_text.specs.Lexing.{is_word_byte};
ghost use Rattle.text_places.specs.Reading.{before_blanks, begins_word, behind_blanks, behind_word};
ghost use Rattle.text_places.specs.Reading.{first_word, is_in_comment, last_end, last_word};
ghost use Rattle.text_places.specs.Reading.{short_word, stands_free, without_comments};

use crate::byte_kind::{ByteKind, first_count, last_count};
use crate::limits::SHORT_WORD;
use crate::place::{before, behind};
use prog_text::is_word_byte;
use std::alloc::{AllocError, Global};

fn is_in_comment(is_open: bool, byte: u8) -> bool
    ensures { result ≡ is_in_comment is_open byte }
{
    byte != b'\n' && (is_open || byte == b'#')
}

/// The text with spaces for its comments.
pub fn without_comments(alloc: Global, text: &[u8]) -> Result<Vec<u8>, AllocError>
    ensures { IfOk result (λ blanked. blanked.items ≡ without_comments text.now) }
{
    let mut blanked = Vec::with_capacity(alloc, text.len())?;
    let mut is_open = false;
    for byte in text {
        is_open = is_in_comment(is_open, *byte);
        blanked.push_reserved(if is_open { b' ' } else { *byte });
    }
    Ok(blanked)
}

/// How many bytes the word at the front has.
pub fn word_len(bytes: &[u8]) -> usize
    ensures value { result ≡ prefix_len is_word_byte bytes.now }
    ensures within { result ≤ length bytes.now }
{
    first_count(ByteKind::Word, bytes)
}

/// The bytes behind the blanks at the front.
pub fn behind_blanks(bytes: &[u8]) -> &[u8]
    ensures { result.now ≡ behind_blanks bytes.now }
{
    behind(bytes, first_count(ByteKind::Blank, bytes))
}

/// The bytes before the blanks at the end.
pub fn before_blanks(bytes: &[u8]) -> &[u8]
    ensures { result.now ≡ before_blanks bytes.now }
{
    before(bytes, bytes.len() - last_count(ByteKind::Blank, bytes))
}

/// The word at the front, empty where there is none.
pub fn first_word(bytes: &[u8]) -> &[u8]
    ensures { result.now ≡ first_word bytes.now }
{
    before(bytes, word_len(bytes))
}

/// The word at the front, or eight bytes of it: these tell whether it is a word of at most seven.
pub fn short_word(bytes: &[u8]) -> &[u8]
    ensures { result.now ≡ short_word bytes.now }
{
    first_word(before(bytes, SHORT_WORD))
}

/// The word at the end, empty where there is none.
pub fn last_word(bytes: &[u8]) -> &[u8]
    ensures { result.now ≡ last_word bytes.now }
{
    behind(bytes, bytes.len() - last_count(ByteKind::Word, bytes))
}

/// Whether no word goes on at a place.
pub fn stands_free(text: &[u8], place: usize) -> bool
    ensures { result ≡ stands_free text.now place }
{
    match before(text, place) {
        [] => true,
        [.., last] => !is_word_byte(*last),
    }
}

/// Whether a word begins at a place.
pub fn begins_word(text: &[u8], place: usize) -> bool
    ensures { result ≡ begins_word text.now place }
{
    stands_free(text, place) && word_len(behind(text, place)) != 0
}

/// The bytes behind the first word and the blanks that follow it.
pub fn behind_word(bytes: &[u8]) -> &[u8]
    ensures { result.now ≡ behind_word bytes.now }
{
    behind_blanks(behind(bytes, word_len(bytes)))
}

/// Where the last word or sign before a place ends, in a text without comments.
pub fn last_end(plain: &[u8], place: usize) -> usize
    ensures { result ≡ last_end plain.now place }
{
    let front = before(plain, place);
    front.len() - last_count(ByteKind::Blank, front)
}
