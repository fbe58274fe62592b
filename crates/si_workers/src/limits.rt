//! How much one call takes on.

/// No more workers run at once.
pub const MAX_WORKERS: usize = 8;

/// How often the lock is tried before a thread sleeps until it is free. A hold takes some ten
/// microseconds, so it is mostly over before a thread would have slept and woken.
pub const TRIES: u32 = 2_000;

/// After how many of these tries a thread only pauses. Behind the others it lets other threads run.
pub const PAUSES: u32 = 10;
