//! Statements and cells as words quote them: in one line, as a terminal may show it.
ghost use Rattle.std.specs.Prelude.{◌≡◌, ◌≤◌, ◌++◌, IfOk, OnOk, length, string_bytes};
ghost use Rattle.std.specs.List.{before_first, prefix_len};
ghost use Rattle.analysis_words.specs.Quoting.{cells_of, ends_statement, gap_before, in_one_line};
ghost use Rattle.analysis_words.specs.Quoting.{is_before_bracket, is_before_end, quoted_cells};
ghost use Rattle.analysis_words.specs.Quoting.{quoted_statement, spaced_byte, to_bracket};
ghost use Rattle.analysis_words.specs.Quoting.{with_single_spaces};

use crate::limits::MAX_QUOTED;
use std::alloc::{AllocError, Global};
use text_places::{SetText, before, behind, key_place, table_name, visible_text};

// A space where blanks came last.
fn push_gap(line: &mut Vec<u8>, gap: bool) -> Result<(), AllocError>
    ensures { OnOk result (line.new.items ≡ line.old.items ++ gap_before gap) }
{
    if !gap {
        return Ok(());
    }
    line.push(b' ')?;
    Ok(())
}

// What a byte adds to a line.
fn push_spaced(line: &mut Vec<u8>, gap: bool, byte: u8) -> Result<(), AllocError>
    ensures { OnOk result (line.new.items ≡ line.old.items ++ spaced_byte gap byte) }
{
    if byte.is_ascii_whitespace() {
        return Ok(());
    }
    push_gap(line, gap)?;
    line.push(byte)?;
    Ok(())
}

// The bytes with a space in place of each run of blanks.
fn with_single_spaces(alloc: Global, bytes: &[u8]) -> Result<Vec<u8>, AllocError>
    ensures { IfOk result (λ line. line.items ≡ with_single_spaces bytes.now) }
{
    let mut line = Vec::new(alloc);
    let mut gap = false;
    for byte in bytes {
        push_spaced(&mut line, gap, *byte)?;
        gap = byte.is_ascii_whitespace();
    }
    Ok(line)
}

// The bytes in one line, as a terminal may show it.
fn in_one_line(alloc: Global, bytes: &[u8]) -> Result<String, AllocError>
    ensures { IfOk result (λ line. string_bytes line ≡ in_one_line bytes.now) }
{
    let line = with_single_spaces(alloc, bytes)?;
    visible_text(alloc, &line)
}

fn ends_statement(byte: u8) -> bool
    ensures { result ≡ ends_statement byte }
{
    (byte == b';' || byte == b'{') || byte == b'\n'
}

// How many bytes stand before the end of a statement.
fn statement_len(bytes: &[u8]) -> usize
    ensures { result ≡ prefix_len is_before_end bytes.now }
{
    bytes
        .iter()
        .take_while(|byte| !ends_statement(**byte))
        .count()
}

// The bytes before the end of a statement.
fn before_end(bytes: &[u8]) -> &[u8]
    ensures { result.now ≡ before_first ends_statement bytes.now }
{
    before(bytes, statement_len(bytes))
}

/// The statement at a place of a set's text, to its `;`, to the `{` of its body, or to the end of
/// its line.
pub fn quoted_statement(
    alloc: Global,
    text: &SetText<'_>,
    place: usize,
) -> Result<String, AllocError>
    ensures { IfOk result (λ statement. string_bytes statement
        ≡ quoted_statement text.now place) }
{
    let statement = before_end(behind(text.plain(), place));
    in_one_line(alloc, before(statement, MAX_QUOTED))
}

fn is_before_bracket(byte: u8) -> bool
    ensures { result ≡ is_before_bracket byte }
{
    byte != b']'
}

// How many bytes stand before the first `]`.
fn bracket_place(bytes: &[u8]) -> usize
    ensures value { result ≡ prefix_len is_before_bracket bytes.now }
    ensures within { result ≤ length bytes.now }
{
    bytes
        .iter()
        .take_while(|byte| is_before_bracket(**byte))
        .count()
}

// The bytes to the first `]`.
fn to_bracket(bytes: &[u8]) -> &[u8]
    ensures { result.now ≡ to_bracket bytes.now }
{
    before(bytes, bracket_place(bytes) + 1)
}

// A table with its key.
fn cells_of(alloc: Global, front: &[u8]) -> Result<String, AllocError>
    ensures { IfOk result (λ cells. string_bytes cells ≡ cells_of front.now) }
{
    let table = visible_text(alloc, table_name(front))?;
    let key = in_one_line(alloc, behind(front, key_place(front)))?;
    format!(in alloc; "{table}{key}")
}

/// The cell or the range that the statement at a place of a set's text names, with its table.
pub fn quoted_cells(alloc: Global, text: &SetText<'_>, place: usize) -> Result<String, AllocError>
    ensures { IfOk result (λ cells. string_bytes cells ≡ quoted_cells text.now place) }
{
    cells_of(alloc, to_bracket(behind(text.plain(), place)))
}
