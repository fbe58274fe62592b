//! What is worth threads, and what has numbers of 32 bits.

/// Fewer entries than these are work for one thread.
pub const MIN_ENTRIES_OF_THREADS: usize = 16_384;

/// The most reasons whose numbers have 32 bits.
pub const MAX_REASONS: usize = 4_294_967_296;
