//! Numbers as places in a row.
ghost use Rattle.std.specs.Prelude.{◌≡◌, IfOk, string_bytes};
ghost use Rattle.fault_words.specs.Ordinals.{ordinal, ordinal_ending};

use std::alloc::{AllocError, Global};

// What stands behind the digits.
fn ordinal_ending(number: usize) -> &'static str
    ensures { result.now ≡ ordinal_ending number }
{
    if number / 10 % 10 == 1 {
        return "th";
    }
    match number % 10 {
        1 => "st",
        2 => "nd",
        3 => "rd",
        _ => "th",
    }
}

/// The place of a number in a row, as `33rd`.
pub fn ordinal(alloc: Global, number: usize) -> Result<String, AllocError>
    ensures { IfOk result (λ text. string_bytes text ≡ ordinal number) }
{
    let ending = ordinal_ending(number);
    format!(in alloc; "{number}{ending}")
}
