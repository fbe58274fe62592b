//! The words and names of the language.
ghost use Rattle.std.specs.Prelude.{◌≡◌};
ghost use Rattle.fault_words.specs.Reserved.{is_name};

use prog_text::{is_letter, is_reserved, reserved_words};

/// Whether a token is a name.
pub fn is_name(token: &str) -> bool
    ensures { result ≡ is_name token.now }
{
    match token.as_bytes() {
        [byte, ..] if is_letter(*byte) => !is_reserved(token.as_bytes()),
        _ => false,
    }
}

/// The reserved word that a name is but for the case of its letters.
pub fn in_lower_case(name: &str) -> Option<&'static str> {
    let found = reserved_words().iter().find(|entry| entry.0 != name
        && entry.0.eq_ignore_ascii_case(name))?;
    Some(found.0)
}
