//! What calls come to, told as text.

use std::process::Abort;

/// Asserts what is told of a call.
pub fn is_told(rt: &impl Abort, call: &str, found: &str, wanted: &str) {
    assert!(rt; found == wanted, "{call}: {found}");
}

/// Asserts what holds of a call.
pub fn is_so(rt: &impl Abort, call: &str, holds: bool) {
    assert!(rt; holds, "{call}");
}

/// Asserts what holds at a place or of a number.
pub fn is_so_at(rt: &impl Abort, place: usize, holds: bool) {
    assert!(rt; holds, "at {place}");
}
