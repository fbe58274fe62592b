//! Why a draft is no set.

use std::alloc::AllocError;
use std::fmt;
use thiserror::Error;

/// Where a fault lies, by numbers from 0. Statements are numbered within their program, a branch or
/// an `each` before its blocks.
#[derive(Clone, Copy, Debug, PartialEq, Eq, Error)]
pub enum Place {
    Table { table: usize },
    Program { program: usize },
    Statement { program: usize, statement: usize },
}

impl fmt::Display for Place {
    ghost use Rattle.std.specs.Prelude.{Some};
    ghost use Rattle.prog_check.specs.Texts.{place_text};

    ghost output = { λ place. Some (place_text place) };

    fn fmt<W: fmt::Write>(&self, f: &mut fmt::Formatter<W>) -> fmt::Result {
        match self {
            Place::Table { table } => write!(f, "table {table}"),
            Place::Program { program } => write!(f, "program {program}"),
            Place::Statement { program, statement } => {
                write!(f, "program {program} statement {statement}")
            }
        }
    }
}

/// What is wrong with a draft, and where.
#[derive(Clone, Copy, Debug, PartialEq, Eq, Error)]
pub enum CheckFault {
    /// An earlier table has the name.
    DuplicateTable { place: Place },
    /// An earlier program has the name.
    DuplicateProgram { place: Place },
    DuplicateParameter { place: Place },
    UnknownTable { place: Place },
    /// A name is used that is neither a parameter nor visible by a `let` or an `each`.
    UnknownName { place: Place },
    /// A `let` or an `each` gives a name that is visible already.
    NameTaken { place: Place },
    /// A key or a range has another number of columns than its table.
    WrongArity { place: Place },
    /// A `put` or a `delete` on a grow table.
    GrowTableChanged { place: Place },
    /// A statement follows an `abort;` of its block.
    AfterAbort { place: Place },
    /// The 65th table, the 17th program, the 9th parameter, the statement numbered 256, or more
    /// than 24 accesses on a committing path.
    TooMany { place: Place },
    /// More than 32 committing paths.
    TooManyPaths { place: Place },
    Memory,
}

impl fmt::Display for CheckFault {
    ghost use Rattle.std.specs.Prelude.{Some};
    ghost use Rattle.prog_check.specs.Texts.{check_fault_text};

    ghost output = { λ fault. Some (check_fault_text fault) };

    fn fmt<W: fmt::Write>(&self, f: &mut fmt::Formatter<W>) -> fmt::Result {
        match self {
            CheckFault::DuplicateTable { place } => write!(f, "C1 {place}"),
            CheckFault::DuplicateProgram { place } => write!(f, "C2 {place}"),
            CheckFault::DuplicateParameter { place } => write!(f, "C3 {place}"),
            CheckFault::UnknownTable { place } => write!(f, "C4 {place}"),
            CheckFault::UnknownName { place } => write!(f, "C5 {place}"),
            CheckFault::NameTaken { place } => write!(f, "C6 {place}"),
            CheckFault::WrongArity { place } => write!(f, "C7 {place}"),
            CheckFault::GrowTableChanged { place } => write!(f, "C8 {place}"),
            CheckFault::AfterAbort { place } => write!(f, "C9 {place}"),
            CheckFault::TooMany { place } => write!(f, "C10 {place}"),
            CheckFault::TooManyPaths { place } => write!(f, "C11 {place}"),
            CheckFault::Memory => f.write_str("memory"),
        }
    }
}

impl From<AllocError> for CheckFault {
    ghost use Rattle.std.specs.Prelude.{◌≡◌};
    ghost use Rattle.prog_check.specs.declared.fault.CheckFault.TheVariants.{Memory};

    ghost from_gives = { λ _ e. e ≡ Memory };

    fn from(_: AllocError) -> Self {
        CheckFault::Memory
    }
}
