//! How much is told.

/// Lines or jobs of a kind.
pub const MAX_TOLD: usize = 8;

/// Bytes of a word of the input.
pub const MAX_WORD: usize = 40;

/// Arguments of a call, more than any program has.
pub const MAX_ARGUMENTS: usize = 12;
