//! The words and signs of a text that may have any fault.
ghost use Rattle.std.specs.Prelude.{◌≡◌, [], IsUtf8};
ghost use Rattle.std.specs.List.{before_first, prefix_len};
ghost use Rattle.text_places.specs.Tokens.{begins_by, begins_token, first_token, is_before_key};
ghost use Rattle.text_places.specs.Tokens.{is_double, last_token, last_token_len, opens_key};
ghost use Rattle.text_places.specs.Tokens.{second_token, sign_len, table_name, token_len};

use crate::byte_kind::{ByteKind, last_count};
use crate::place::{before, behind};
use crate::reading::{before_blanks, behind_blanks, last_word, stands_free, word_len};
use prog_text::{is_space, is_word_byte};

/// The bytes as text; empty where they are none.
pub fn as_text(bytes: &[u8]) -> &str
    ensures text { IsUtf8 bytes.now → result.now ≡ bytes.now }
    ensures none { ¬ IsUtf8 bytes.now → result.now ≡ [] }
{
    match str::from_utf8(bytes) {
        Ok(text) => text,
        Err(_) => "",
    }
}

// Whether two bytes are one sign.
fn is_double(first: u8, second: u8) -> bool
    ensures { result ≡ is_double first second }
{
    (first == b'.' && second == b'.')
        || (second == b'='
            && ((first == b'<' || first == b'>') || (first == b'=' || first == b'!')))
}

// How many bytes a sign at the front has.
fn sign_len(bytes: &[u8]) -> usize
    ensures { result ≡ sign_len bytes.now }
{
    match bytes {
        [first, second, ..] if is_double(*first, *second) => 2,
        _ => 1,
    }
}

fn token_len(bytes: &[u8]) -> usize
    ensures { result ≡ token_len bytes.now }
{
    let len = word_len(bytes);
    if len == 0 { sign_len(bytes) } else { len }
}

/// The word or the sign at the front.
pub fn first_token(bytes: &[u8]) -> &[u8]
    ensures { result.now ≡ first_token bytes.now }
{
    before(bytes, token_len(bytes))
}

/// The word or the sign behind the first one.
pub fn second_token(bytes: &[u8]) -> &[u8]
    ensures { result.now ≡ second_token bytes.now }
{
    first_token(behind_blanks(behind(bytes, token_len(bytes))))
}

fn last_token_len(bytes: &[u8]) -> usize
    ensures { result ≡ last_token_len bytes.now }
{
    let len = last_count(ByteKind::Word, bytes);
    if len == 0 { 1 } else { len }
}

/// The word at the end, and where there is none the last byte of a sign.
pub fn last_token(bytes: &[u8]) -> &[u8]
    ensures { result.now ≡ last_token bytes.now }
{
    behind(bytes, bytes.len().saturating_sub(last_token_len(bytes)))
}

// Whether a word or a sign begins with bytes, before which a word may end or not.
fn begins_by(is_free: bool, bytes: &[u8]) -> bool
    ensures { result ≡ begins_by is_free bytes.now }
{
    match bytes {
        [] => false,
        [byte, ..] => !is_space(*byte) && (!is_word_byte(*byte) || is_free),
    }
}

/// Whether a word or a sign begins at a place; each byte of a sign does.
pub fn begins_token(text: &[u8], place: usize) -> bool
    ensures { result ≡ begins_token text.now place }
{
    begins_by(stands_free(text, place), behind(text, place))
}

fn opens_key(byte: u8) -> bool
    ensures { result ≡ opens_key byte }
{
    byte == b'['
}

/// How many bytes stand before the first `[`.
pub fn key_place(bytes: &[u8]) -> usize
    ensures { result ≡ prefix_len is_before_key bytes.now }
{
    bytes.iter().take_while(|byte| !opens_key(**byte)).count()
}

// The bytes before the first `[`.
fn before_key(bytes: &[u8]) -> &[u8]
    ensures { result.now ≡ before_first opens_key bytes.now }
{
    before(bytes, key_place(bytes))
}

/// The name before the first `[`: the table of a statement.
pub fn table_name(statement: &[u8]) -> &[u8]
    ensures { result.now ≡ table_name statement.now }
{
    last_word(before_blanks(before_key(statement)))
}
