//! Places of a part of an input, with their lines in the part and in the whole input.
ghost use Rattle.std.specs.Prelude.{◌≡◌, ◌≤◌, ◌+◌, ◌++◌, IfOk, length, map, string_bytes};
ghost use Rattle.text_places.specs.Quotes.{pointed_out, visible};
ghost use Rattle.run_words.specs.InInput.{input_line_text, whole_line, whole_line_text};
ghost use Rattle.run_words.specs.InInput.{numbered_text, PointsInPart};

use std::alloc::{AllocError, Global};
use text_places::{feeds, line_number, point_out, visible_text};

/// A part of an input, and the bytes of the input that stand ahead of it.
#[derive(Clone, Copy)]
pub struct Part<'a> {
    pub ahead: &'a [u8],
    pub bytes: &'a [u8],
}

// A line of a part, by its number in the whole input.
fn whole_line(part: Part<'_>, line: usize) -> usize
    requires { line ≤ length part.bytes.now + 1 }
    ensures { result ≡ whole_line part.entry line }
{
    feeds(part.ahead) + line
}

fn numbered_text(alloc: Global, line: usize) -> Result<String, AllocError>
    ensures { IfOk result (λ text. string_bytes text ≡ numbered_text line) }
{
    format!(in alloc; " (line {line} of the input)")
}

/// A line of a part in the whole input; nothing where the part is the whole.
pub fn whole_line_text(alloc: Global, part: Part<'_>, line: usize) -> Result<String, AllocError>
    requires { line ≤ length part.bytes.now + 1 }
    ensures { IfOk result (λ text. string_bytes text ≡ whole_line_text part.entry line) }
{
    let [_, ..] = part.ahead else {
        return Ok(String::new(alloc));
    };
    numbered_text(alloc, whole_line(part, line))
}

/// The line of a place of a part in the whole input; nothing where the part is the whole.
#[tactic(auto, using(crate::proofs::WholeInput::same_text, crate::proofs::WholeInput::few_lines))]
pub fn input_line_text(alloc: Global, part: Part<'_>, place: usize) -> Result<String, AllocError>
    ensures { IfOk result (λ text. string_bytes text ≡ input_line_text part.entry place) }
{
    whole_line_text(alloc, part, line_number(part.bytes, place))
}

/// Says a sentence of a place of a part in one line, as `point_out` does, and behind it the line in
/// the whole input.
pub fn point_in_part(
    alloc: Global,
    part: Part<'_>,
    place: usize,
    sentence: &str,
) -> Result<String, AllocError>
    ensures points { IfOk result (λ words. PointsInPart part.entry place (string_bytes words)) }
    ensures said { IfOk result (λ words. string_bytes words ≡ pointed_out part.entry.bytes.now place
        (map visible sentence.now ++ input_line_text part.entry place)) }
{
    let line = input_line_text(alloc, part, place)?;
    let shown = visible_text(alloc, sentence.as_bytes())?;
    let sentence = format!(in alloc; "{shown}{line}")?;
    point_out(alloc, part.bytes, place, &sentence)
}
