//! What is worth threads, and what has numbers of 32 bits.

/// The fewest questions that several threads answer.
pub const MIN_QUESTIONS_OF_THREADS: usize = 10_000;

/// Into how many equal parts is cut what several threads do; some more may be left for a last one.
pub const EQUAL_PARTS: usize = 8;

/// The most accesses whose numbers have 32 bits. A list of more would take 500 GB.
pub const MAX_PLACES: usize = 4_294_967_296;

/// The most values whose numbers have 32 bits.
pub const MAX_VALUES: usize = 4_294_967_296;
