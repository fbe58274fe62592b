//! A place of a text as people see it.
ghost use Rattle.std.specs.Prelude.{◌≡◌, ◌<◌, ◌++◌, IfOk, OnOk, map, replicate, string_bytes};
ghost use Rattle.text_places.specs.Quotes.{left_out, mark, pointed_out, position, quote, visible};

use crate::limits::{MAX_BEFORE, MAX_LINE};
use crate::place::{before, behind, column, inset, line_at, line_number};
use std::alloc::{AllocError, Global};

// A byte as a terminal may show it.
fn visible(byte: u8) -> u8
    ensures value { result ≡ visible byte }
    ensures ascii { result < 128 }
{
    if 31 < byte && byte < 127 {
        byte
    } else if byte == b'\t' || byte == b'\r' {
        b' '
    } else {
        b'?'
    }
}

// Adds bytes as a terminal may show them.
fn push_visible(out: &mut String, bytes: &[u8]) -> Result<(), AllocError>
    ensures { OnOk result (string_bytes out.new ≡ string_bytes out.old ++ map visible bytes.now) }
{
    for byte in bytes {
        out.push(char::from(visible(*byte)))?;
    }
    Ok(())
}

/// Bytes as a terminal may show them.
pub fn visible_text(alloc: Global, bytes: &[u8]) -> Result<String, AllocError>
    ensures { IfOk result (λ text. string_bytes text ≡ map visible bytes.now) }
{
    let mut text = String::new(alloc);
    push_visible(&mut text, bytes)?;
    Ok(text)
}

fn push_spaces(out: &mut String, count: usize) -> Result<(), AllocError>
    ensures { OnOk result (string_bytes out.new ≡ string_bytes out.old ++ replicate count 32) }
{
    for _space in 0..count {
        out.push(' ')?;
    }
    Ok(())
}

// The line and the column of a place, in words.
fn position(alloc: Global, text: &[u8], place: usize) -> Result<String, AllocError>
    ensures { IfOk result (λ words. string_bytes words ≡ position text.now place) }
{
    let line = line_number(text, place);
    let column = column(text, place);
    format!(in alloc; "line {line}, column {column}")
}

// Adds the line of a place, and below it a mark under the place. Of a long line a piece is shown.
fn push_quote(out: &mut String, text: &[u8], place: usize) -> Result<(), AllocError>
    ensures { OnOk result (string_bytes out.new ≡ string_bytes out.old ++ quote text.now place) }
{
    let inset = inset(text, place);
    let left_out = inset.saturating_sub(MAX_BEFORE);
    let shown = before(behind(line_at(text, place), left_out), MAX_LINE);
    out.push_str("  ")?;
    push_visible(out, shown)?;
    out.push_str("\n  ")?;
    push_spaces(out, inset - left_out)?;
    out.push_str("^\n")
}

/// Says a sentence of a place: where it is, the sentence, the line of the place, and a mark below.
pub fn point_out(
    alloc: Global,
    text: &[u8],
    place: usize,
    sentence: &str,
) -> Result<String, AllocError>
    ensures { IfOk result (λ words. string_bytes words ≡ pointed_out text.now place sentence.now) }
{
    let position = position(alloc, text, place)?;
    let mut words = format!(in alloc; "{position}: {sentence}\n")?;
    push_quote(&mut words, text, place)?;
    Ok(words)
}
