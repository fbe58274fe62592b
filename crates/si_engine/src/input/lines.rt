//! Lines of a part.
ghost use Rattle.std.specs.Prelude.{◌≡◌, ◌≢◌, ◌==◌, ℕ, ◌+◌, ◌<◌, ◌≤◌, length, slice_index, take};
ghost use Rattle.std.specs.Prelude.{drop, not};
ghost use Rattle.std.specs.List.{prefix_len, before_first, after_first};
ghost use Rattle.std.specs.Str.Lines.{strip_carriage_return};
ghost use Rattle.si_engine.specs.Lines.{is_skipped};

use memchr::memchr;

// The first place of a separator, or how many bytes there are.
fn first_place(bytes: &[u8], separator: u8) -> usize
    ensures within { result ≤ length bytes.now }
    ensures before { (k : ℕ) → k < result → slice_index bytes.now k ≢ separator }
    ensures there { result < length bytes.now → slice_index bytes.now result ≡ separator }
{
    memchr(separator, bytes).unwrap_or(bytes.len())
}

// How many bytes stand before the first separator.
fn first_len(bytes: &[u8], separator: u8) -> usize
    ensures value { result ≡ prefix_len (λ b. not (b == separator)) bytes.now }
    ensures within { result ≤ length bytes.now }
{
    first_place(bytes, separator)
}

/// The items before a place, and those behind the one there: none if the place is the end.
pub fn cut_around<T>(items: &[T], place: usize) -> (&[T], &[T])
    requires { place ≤ length items.now }
    ensures before { result.0.now ≡ take place items.now }
    ensures behind { result.1.now ≡ drop (place + 1) items.now }
{
    let (before, behind) = items.split_at(place);
    match behind {
        [] => (before, behind),
        [_, rest @ ..] => (before, rest),
    }
}

/// The bytes before the first separator and those behind it, of which there are none if there is no
/// separator.
pub fn cut(bytes: &[u8], separator: u8) -> (&[u8], &[u8])
    ensures first { result.0.now ≡ before_first (λ b. b == separator) bytes.now }
    ensures rest { result.1.now ≡ after_first (λ b. b == separator) bytes.now }
    ensures shorter { 0 < length bytes.now → length result.1.now < length bytes.now }
{
    let len = first_len(bytes, separator);
    cut_around(bytes, len)
}

/// A line without one carriage return at its end.
pub fn without_return(line: &[u8]) -> &[u8]
    ensures { result.now ≡ strip_carriage_return line.now }
{
    match line {
        [rest @ .., b'\r'] => rest,
        _ => line,
    }
}

/// Whether a line is empty or a comment.
pub fn is_skipped(line: &[u8]) -> bool
    ensures { result ≡ is_skipped line.now }
{
    match line {
        [] => true,
        [first, ..] => *first == b'#',
    }
}
