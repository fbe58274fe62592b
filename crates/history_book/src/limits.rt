//! How much a book takes.

/// The most endings and active instances: where there are so many, no begin succeeds.
pub const MAX_ENDINGS: usize = 100_000;

/// The most commits of which each order is tried.
pub const MAX_ORDERED: usize = 6;
