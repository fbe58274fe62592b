//! What is wrong with the parts of an input, in words.
ghost use Rattle.std.specs.Prelude.{◌≡◌, ◌<◌, IfNone, IfOk, IfSome, length, string_bytes};
ghost use Rattle.fault_words.specs.Pointing.{PointsAt};
ghost use Rattle.run_words.specs.PartPointing.{begins_separator, is_separator_at, HasNoSeparator};
ghost use Rattle.run_words.specs.PartPointing.{IsLastSeparator, PointsAtSeparator};

use fault_words::point_at;
use std::alloc::{AllocError, Global};
use text_places::{before, behind, ends_line, line_number};

/// Whether bytes begin with `%%`, where the line ends.
pub fn begins_separator(bytes: &[u8]) -> bool
    ensures { result ≡ begins_separator bytes.now }
{
    bytes == b"%%".as_slice() || bytes.starts_with(b"%%\n")
}

// Whether a line `%%` begins at a place.
fn is_separator_at(input: &[u8], place: usize) -> bool
    requires { place < length input.now }
    ensures { result ≡ is_separator_at input.now place }
{
    ends_line(&input[..place]) && begins_separator(&input[place..])
}

// Whether a line begins at a place that has `%%` and more.
fn is_near_separator_at(input: &[u8], place: usize) -> bool {
    matches!(
        behind(input, place),
        [b'%', b'%', ..] | [b' ', b'%', b'%', ..]
    ) && ends_line(before(input, place))
}

// Where the line begins that was perhaps meant as `%%`.
fn near_separator(input: &[u8]) -> Option<usize> {
    (0..input.len()).find(|place| is_near_separator_at(input, *place))
}

// What the line that begins with these bytes has besides `%%`.
fn excess(bytes: &[u8]) -> &'static str {
    match bytes {
        [b'%', b'%', b'\r'] | [b'%', b'%', b'\r', b'\n', ..] => "a carriage return behind it",
        _ => "more than that",
    }
}

/// That no line is `%%`, behind which something is wanted.
pub fn missing_part_words(alloc: Global, input: &[u8], wanted: &str) -> Result<String, AllocError>
    ensures { IfOk result (λ words. PointsAt input.now (length input.now) (string_bytes words)) }
{
    let sentence = match near_separator(input) {
        Some(place) => {
            let line = line_number(input, place);
            let excess = excess(behind(input, place));
            format!(in alloc;
                "no line is `%%`, behind which {wanted} would stand; line {line} has {excess}"
            )?
        }
        None => format!(in alloc; "no line is `%%`, behind which {wanted} would stand")?,
    };
    point_at(alloc, input, input.len(), &sentence)
}

// The last line `%%`, which is one too many.
fn last_separator(input: &[u8]) -> Option<usize>
    ensures found { IfSome result (IsLastSeparator input.now) }
    ensures none { IfNone result (HasNoSeparator input.now) }
{
    for tried in 0..input.len() {
        let place = input.len() - 1 - tried;
        if is_separator_at(input, place) {
            return Some(place);
        }
    }
    None
}

/// That a line `%%` is one too many, behind what is wanted; nothing where there is none.
pub fn extra_part_words(
    alloc: Global,
    input: &[u8],
    wanted: &str,
) -> Result<Option<String>, AllocError>
    ensures said { IfOk result (λ said. IfSome said (λ words.
        PointsAtSeparator input.now (string_bytes words))) }
    ensures none { IfOk result (λ said. IfNone said (HasNoSeparator input.now)) }
{
    let Some(place) = last_separator(input) else {
        return Ok(None);
    };
    let sentence = format!(in alloc; "a line `%%` too many; what is wanted is {wanted}")?;
    let words = point_at(alloc, input, place, &sentence)?;
    Ok(Some(words))
}
