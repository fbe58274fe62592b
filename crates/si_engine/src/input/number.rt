//! Words as numbers: decimal, with leading zeros or a minus sign before them as it pleases.
ghost use Rattle.std.specs.Prelude.{◌≡◌, pos, option_and_then, IfOk};
ghost use Rattle.si_engine.specs.Numbers.{with_digit, natural_of, between, max_u64, i64_of};
ghost use Rattle.si_engine.specs.Numbers.{number_between, u64_of, numbers_of};

use crate::input::line_words::LineWord;
use prog_tree::Sequence;
use std::alloc::{AllocError, Global};

// A number with one more digit behind it, if the byte is one and the number is still one of u64.
fn with_digit(value: u64, byte: u8) -> Option<u64>
    ensures { result ≡ with_digit value byte }
{
    if !byte.is_ascii_digit() {
        return None;
    }
    value.checked_mul(10)?.checked_add(u64::from(byte - b'0'))
}

// The u64 that digits are, of which there is at least one.
fn natural(bytes: &[u8]) -> Option<u64>
    ensures { result
        ≡ option_and_then (λ n. between 0 max_u64 (pos n)) (natural_of bytes.now) }
{
    if bytes.is_empty() {
        return None;
    }
    let mut value = 0;
    for byte in bytes {
        value = with_digit(value, *byte)?;
    }
    Some(value)
}

/// The i64 that a word is.
pub fn number(word: &[u8]) -> Option<i64>
    ensures { result ≡ i64_of word.now }
{
    match word {
        [b'-', digits @ ..] => 0i64.checked_sub_unsigned(natural(digits)?),
        digits => 0i64.checked_add_unsigned(natural(digits)?),
    }
}

/// The number from `low` to `high` that a word is.
pub fn number_between(low: usize, high: usize, word: &[u8]) -> Option<usize>
    ensures { result ≡ number_between low high word.now }
{
    let number = usize::try_from(number(word)?).ok()?;
    if low <= number && number <= high {
        Some(number)
    } else {
        None
    }
}

/// The u64 that a word is.
pub fn unsigned(word: &[u8]) -> Option<u64>
    ensures { result ≡ u64_of word.now }
{
    match word {
        [b'-', digits @ ..] => 0u64.checked_sub(natural(digits)?),
        digits => natural(digits),
    }
}

/// The numbers of words, if all are such.
pub fn numbers(alloc: Global, words: &[LineWord<'_>]) -> Result<Option<Sequence<i64>>, AllocError>
    ensures { IfOk result (λ numbers. numbers ≡ numbers_of words.now) }
{
    let mut numbers = Vec::with_capacity(alloc, words.len())?;
    for word in words {
        let Some(number) = number(word.as_bytes()) else {
            return Ok(None);
        };
        numbers.push_reserved(number);
    }
    Ok(Some(Sequence::from_vec(numbers)))
}
