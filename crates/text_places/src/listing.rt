//! Lists with commas.
ghost use Rattle.std.specs.Prelude.{◌≡◌, IfOk, OnOk, string_bytes};
ghost use Rattle.text_places.specs.Listing.{bracketed, comma_behind, further_numbers, with_listed};

use std::alloc::{AllocError, Global};

// What stands between a list and what is added to it.
fn comma_behind(list: &str) -> &'static str
    ensures { result.now ≡ comma_behind list.now }
{
    match list.as_bytes() {
        [] => "",
        [_, ..] => ", ",
    }
}

/// Adds to a list, with a comma before what is not its first.
pub fn push_listed(list: &mut String, word: &str) -> Result<(), AllocError>
    ensures { OnOk result (string_bytes list.new ≡ with_listed (string_bytes list.old) word.now) }
{
    list.push_str(comma_behind(list.as_str()))?;
    list.push_str(word)
}

// Numbers, each behind a comma.
fn further_numbers(alloc: Global, numbers: &[i64]) -> Result<String, AllocError>
    ensures { IfOk result (λ text. string_bytes text ≡ further_numbers numbers.now) }
{
    let mut text = String::new(alloc);
    for number in numbers {
        write!(text, ", {number}")?;
    }
    Ok(text)
}

/// Numbers in brackets, with commas between them.
pub fn bracketed(alloc: Global, numbers: &[i64]) -> Result<String, AllocError>
    ensures { IfOk result (λ text. string_bytes text ≡ bracketed numbers.now) }
{
    let [first, others @ ..] = numbers else {
        return format!(in alloc; "()");
    };
    let others = further_numbers(alloc, others)?;
    format!(in alloc; "({first}{others})")
}
