//! How much of a long line is shown, and how much of a word is read.

/// Bytes of a line before the place.
pub const MAX_BEFORE: usize = 60;

/// Bytes of a line in all.
pub const MAX_LINE: usize = 100;

/// Bytes that tell whether a word is one of at most seven.
pub const SHORT_WORD: usize = 8;
