//! Why tokens are no set.

ghost use Rattle.std.specs.Prelude.{◌≡◌, length};

use crate::lexing::token::Token;
use std::alloc::{AllocError, AllocFailed};

/// Why the tokens weren't read.
#[derive(Drop)]
pub enum ReadError {
    Memory,
    /// This many tokens are left from the first that can't stand where it does.
    Unexpected { left: usize },
}

impl From<AllocError> for ReadError {
    ghost use Rattle.prog_text.specs.declared.reading.read_error.ReadError.TheVariants.{Memory};

    ghost from_gives = { λ _ e. e ≡ Memory };

    fn from(_error: AllocError) -> Self {
        ReadError::Memory
    }
}

impl<T: Drop> From<AllocFailed<T>> for ReadError {
    ghost use Rattle.prog_text.specs.declared.reading.read_error.ReadError.TheVariants.{Memory};

    ghost from_gives = { λ _ e. e ≡ Memory };

    fn from(_error: AllocFailed<T>) -> Self {
        ReadError::Memory
    }
}

// The first of these tokens can't stand where it does.
pub fn unexpected(tokens: &[Token<'_>]) -> ReadError
    ensures { result ≡ ReadError.Unexpected (length tokens.now) }
{
    ReadError::Unexpected { left: tokens.len() }
}
