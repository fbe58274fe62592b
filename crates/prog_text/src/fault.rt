//! Why a text is refused.

use std::fmt;
use thiserror::Error;

/// Why a text is refused, and the byte from 0 at which the refusal stands.
#[derive(Clone, Copy, Debug, PartialEq, Eq, Error)]
pub enum TextFault {
    /// A byte of 128 or more.
    NotAscii { place: usize },
    /// A byte at which no token, space or comment begins.
    UnknownByte { place: usize },
    /// The first token with which the text begins no set of tables and programs.
    UnexpectedToken { place: usize },
    /// The text ends inside a set.
    UnexpectedEnd { place: usize },
    /// A number above the greatest i64.
    NumberOutOfRange { place: usize },
    /// A name of more than 32 bytes.
    NameTooLong { place: usize },
    /// The 17th open bracket, or the 33rd operator of a statement.
    TooDeep { place: usize },
    /// A text of more than 1,048,576 bytes.
    TooLong { place: usize },
    Memory,
}

impl fmt::Display for TextFault {
    ghost use Rattle.std.specs.Prelude.{Some};
    ghost use Rattle.prog_text.specs.Texts.{text_fault_text};

    ghost output = { λ fault. Some (text_fault_text fault) };

    fn fmt<W: fmt::Write>(&self, f: &mut fmt::Formatter<W>) -> fmt::Result {
        match self {
            TextFault::NotAscii { place } => write!(f, "P1 at {place}"),
            TextFault::UnknownByte { place } => write!(f, "P2 at {place}"),
            TextFault::UnexpectedToken { place } => write!(f, "P3 at {place}"),
            TextFault::UnexpectedEnd { place } => write!(f, "P4 at {place}"),
            TextFault::NumberOutOfRange { place } => write!(f, "P5 at {place}"),
            TextFault::NameTooLong { place } => write!(f, "P6 at {place}"),
            TextFault::TooDeep { place } => write!(f, "P7 at {place}"),
            TextFault::TooLong { place } => write!(f, "P8 at {place}"),
            TextFault::Memory => f.write_str("memory"),
        }
    }
}
