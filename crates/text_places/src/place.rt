//! The line and the column of a place. A place behind the end of a text stands for its end.
ghost use Rattle.std.specs.Prelude.{◌≡◌, ◌≤◌, count_by, drop, length, take, IfNone, IfSome};
ghost use Rattle.std.specs.List.{before_first, list_all};
ghost use Rattle.text_places.specs.Places.{begins_line, column, ends_line, inset, is_feed};
ghost use Rattle.text_places.specs.Places.{is_indent, line_at, line_number, line_start, HasNoLine};
ghost use Rattle.text_places.specs.Places.{IsLineFront};

use crate::byte_kind::{ByteKind, first_count, last_count};

/// The items before a place.
pub fn before<T>(items: &[T], place: usize) -> &[T]
    ensures { result.now ≡ take place items.now }
{
    if place < items.len() {
        &items[..place]
    } else {
        items
    }
}

/// The bytes from a place on.
pub fn behind(text: &[u8], place: usize) -> &[u8]
    ensures { result.now ≡ drop place text.now }
{
    if place < text.len() {
        &text[place..]
    } else {
        &[]
    }
}

pub fn is_feed(byte: u8) -> bool
    ensures { result ≡ is_feed byte }
{
    byte == b'\n'
}

/// How many line feeds there are.
pub fn feeds(bytes: &[u8]) -> usize
    ensures value { result ≡ count_by is_feed bytes.now }
    ensures within { result ≤ length bytes.now }
{
    bytes.iter().filter(|byte| is_feed(**byte)).count()
}

/// The line of a place, from 1.
pub fn line_number(text: &[u8], place: usize) -> usize
    ensures { result ≡ line_number text.now place }
{
    feeds(before(text, place)) + 1
}

/// Whether bytes end a line, as no bytes do.
pub fn ends_line(bytes: &[u8]) -> bool
    ensures { result ≡ ends_line bytes.now }
{
    match bytes {
        [] => true,
        [.., last] => is_feed(*last),
    }
}

fn is_indent(byte: u8) -> bool
    ensures { result ≡ is_indent byte }
{
    byte == b' '
}

fn are_indents(bytes: &[u8]) -> bool
    ensures { result ≡ list_all is_indent bytes.now }
{
    bytes.iter().all(|byte| is_indent(*byte))
}

/// How many bytes of its line stand before a place.
pub fn inset(text: &[u8], place: usize) -> usize
    ensures value { result ≡ inset text.now place }
    ensures within { result ≤ length (take place text.now) }
{
    last_count(ByteKind::Inline, before(text, place))
}

/// The column of a place, from 1. Each byte counts, since those before a fault's place are ASCII.
pub fn column(text: &[u8], place: usize) -> usize
    ensures { result ≡ column text.now place }
{
    inset(text, place) + 1
}

// Where the line of a place begins.
fn line_start(text: &[u8], place: usize) -> usize
    ensures { result ≡ line_start text.now place }
{
    before(text, place).len() - inset(text, place)
}

/// Whether in its line only spaces stand before a place.
pub fn begins_line(text: &[u8], place: usize) -> bool
    ensures { result ≡ begins_line text.now place }
{
    are_indents(behind(before(text, place), line_start(text, place)))
}

// The bytes before the first line feed.
fn first_line(text: &[u8]) -> &[u8]
    ensures { result.now ≡ before_first is_feed text.now }
{
    before(text, first_count(ByteKind::Inline, text))
}

/// The line in which a place stands, without its line feed.
pub fn line_at(text: &[u8], place: usize) -> &[u8]
    ensures { result.now ≡ line_at text.now place }
{
    first_line(behind(text, line_start(text, place)))
}

/// Where the line of a number begins, from 1; nothing where the text has fewer.
pub fn line_front(text: &[u8], line: usize) -> Option<usize>
    ensures front { IfSome result (IsLineFront text.now line) }
    ensures none { IfNone result (HasNoLine text.now line) }
{
    let mut left = line.checked_sub(1)?;
    if left == 0 {
        return Some(0);
    }
    for place in 0..text.len() {
        if !is_feed(text[place]) {
            continue;
        }
        left -= 1;
        if left == 0 {
            return Some(place + 1);
        }
    }
    None
}
