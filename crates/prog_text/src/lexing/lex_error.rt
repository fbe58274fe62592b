//! Why a text has no tokens.

ghost use Rattle.std.specs.Prelude.{◌≡◌};

use std::alloc::AllocFailed;

/// What is wrong with the bytes at one place.
#[derive(Clone, Copy)]
pub enum Flaw {
    /// A byte of 128 or more.
    NotAscii,
    /// A byte that begins no token.
    UnknownByte,
    /// A number above 9223372036854775807.
    NumberOutOfRange,
    /// A name of more than 32 bytes.
    NameTooLong,
}

/// Why a text has no tokens.
#[derive(Drop)]
pub enum LexError {
    Memory,
    /// The first flaw, with how many bytes are left from there on.
    At { flaw: Flaw, left: usize },
}

impl<T: Drop> From<AllocFailed<T>> for LexError {
    ghost use Rattle.prog_text.specs.declared.lexing.lex_error.LexError.TheVariants.{Memory};

    ghost from_gives = { λ _ e. e ≡ Memory };

    fn from(_error: AllocFailed<T>) -> LexError {
        LexError::Memory
    }
}
