//! How much of the input is taken.

/// The most bytes that are read of a source.
pub const MAX_INPUT_BYTES: usize = 16_777_216;

/// The most reads of a source: one for each byte, and one that tells its end.
pub const MAX_READS: usize = 16_777_217;

/// The most events of a script.
pub const MAX_EVENTS: usize = 1_000_000;

/// The greatest number of an instance.
pub const MAX_INSTANCE: usize = 4_294_967_295;

/// The most steps that a line asks for.
pub const MAX_STEPS: usize = 1000;
