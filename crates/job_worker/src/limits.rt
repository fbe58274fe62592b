//! How much is taken on.

/// No more jobs are taken.
pub const MAX_JOBS: usize = 100_000;

/// A worker gives up old versions after every so many jobs that it ended.
pub const VACUUM_AFTER: usize = 16;
