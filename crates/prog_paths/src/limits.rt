//! How much is counted.

use prog_check::MAX_STATEMENTS;

/// The most questions of a set that is analysed.
pub const MAX_QUESTIONS: usize = 1_000_000;

/// The most statements that are counted: one more than a program of a set has.
pub const MAX_COUNTED: usize = MAX_STATEMENTS + 1;

// The most unknowns of a statement.
const UNKNOWNS_OF_A_STATEMENT: usize = 3;

/// More unknowns than a path has ahead of a statement.
pub const MAX_UNKNOWNS: usize = UNKNOWNS_OF_A_STATEMENT * MAX_STATEMENTS + 1;
