//! How large a set may be.

/// The most tables of a set.
pub const MAX_TABLES: usize = 64;

/// The most programs of a set.
pub const MAX_PROGRAMS: usize = 16;

/// The most parameters of a program.
pub const MAX_PARAMETERS: usize = 8;

/// The most statements of a program, with those of its blocks.
pub const MAX_STATEMENTS: usize = 256;

/// The most committing paths of a program.
pub const MAX_PATHS: usize = 32;

/// The most accesses on a committing path.
pub const MAX_ACCESSES: usize = 24;
