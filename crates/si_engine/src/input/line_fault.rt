//! What is wrong with a line.

use std::alloc::{AllocError, AllocFailed};
use std::error::Error;
use std::fmt;

/// What is wrong with a line, from 1.
#[derive(Clone, Copy, Debug, PartialEq, Eq)]
pub enum LineFault {
    /// The line has none of the known forms, or a number is none or outside its range.
    BadLine { line: usize },
    /// A table or a program is unknown.
    UnknownName { line: usize },
    /// A row has another number of keys than its table has key columns.
    WrongKeys { line: usize },
    /// A row stands behind a line of another kind.
    LateRow { line: usize },
    /// An earlier row has the cell.
    RepeatedRow { line: usize },
    /// The line brings the events above 1,000,000.
    TooManyEvents { line: usize },
    Memory,
}

impl fmt::Display for LineFault {
    ghost use Rattle.std.specs.Prelude.{Some};
    ghost use Rattle.si_engine.specs.Texts.{line_fault_text};

    ghost output = { λ fault. Some (line_fault_text fault) };

    fn fmt<W: fmt::Write>(&self, f: &mut fmt::Formatter<W>) -> fmt::Result {
        match self {
            LineFault::BadLine { line } => write!(f, "S1 line {line}"),
            LineFault::UnknownName { line } => write!(f, "S2 line {line}"),
            LineFault::WrongKeys { line } => write!(f, "S3 line {line}"),
            LineFault::LateRow { line } => write!(f, "S4 line {line}"),
            LineFault::RepeatedRow { line } => write!(f, "S5 line {line}"),
            LineFault::TooManyEvents { line } => write!(f, "S6 line {line}"),
            LineFault::Memory => f.write_str("memory"),
        }
    }
}

impl Error for LineFault {}

impl From<AllocError> for LineFault {
    ghost use Rattle.std.specs.Prelude.{◌≡◌};
    ghost use Rattle.si_engine.specs.declared.input.line_fault.LineFault.TheVariants.{Memory};

    ghost from_gives = { λ _ e. e ≡ Memory };

    fn from(_: AllocError) -> Self {
        LineFault::Memory
    }
}

impl<T: Drop> From<AllocFailed<T>> for LineFault {
    ghost use Rattle.std.specs.Prelude.{◌≡◌};
    ghost use Rattle.si_engine.specs.declared.input.line_fault.LineFault.TheVariants.{Memory};

    ghost from_gives = { λ _ e. e ≡ Memory };

    fn from(_: AllocFailed<T>) -> Self {
        LineFault::Memory
    }
}
