//! How many bytes of a kind stand at the front or at the end of others.
ghost use Rattle.std.specs.Prelude.{◌≡◌, ◌≤◌, length};
ghost use Rattle.std.specs.List.{prefix_len, suffix_len};
ghost use Rattle.text_places.specs.ByteKinds.{is_of};

use crate::place::is_feed;
use prog_text::{is_space, is_word_byte};

/// Bytes that are counted together.
#[derive(Clone, Copy, Debug, PartialEq, Eq)]
pub enum ByteKind {
    /// Letters, digits and `_`.
    Word,
    /// What separates words and signs.
    Blank,
    /// What a line has before its line feed.
    Inline,
}

fn is_of(kind: ByteKind, byte: u8) -> bool
    ensures { result ≡ is_of kind byte }
{
    match kind {
        ByteKind::Word => is_word_byte(byte),
        ByteKind::Blank => is_space(byte),
        ByteKind::Inline => !is_feed(byte),
    }
}

/// How many bytes of a kind stand at the front.
pub fn first_count(kind: ByteKind, bytes: &[u8]) -> usize
    ensures value { result ≡ prefix_len (is_of kind) bytes.now }
    ensures within { result ≤ length bytes.now }
{
    bytes.iter().take_while(|byte| is_of(kind, **byte)).count()
}

/// How many bytes of a kind stand at the end.
pub fn last_count(kind: ByteKind, bytes: &[u8]) -> usize
    ensures value { result ≡ suffix_len (is_of kind) bytes.now }
    ensures within { result ≤ length bytes.now }
{
    bytes
        .iter()
        .rev()
        .take_while(|byte| is_of(kind, **byte))
        .count()
}
