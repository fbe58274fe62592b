//! How far is looked for what was meant.

use prog_text::MAX_NAME_BYTES;

/// The most bytes before a place at which words are tried.
pub const MAX_TRIED: usize = 65_536;

/// A name that was meant has fewer edits than this.
pub const MAX_EDITS: usize = 3;

/// The most bytes of a word that may be a misspelt name: fewer edits than MAX_EDITS make a name by
/// fewer characters longer, and a character has at most 4 bytes.
pub const MAX_MEANT: usize = 4 * (MAX_NAME_BYTES + MAX_EDITS - 1);
