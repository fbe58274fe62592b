//! How much is told.

/// Bytes of a quoted statement.
pub const MAX_QUOTED: usize = 60;

/// Pairs behind the first.
pub const MAX_FURTHER: usize = 7;

/// Nodes with their levels.
pub const MAX_LEVELS: usize = 8;
