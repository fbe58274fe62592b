//! How much there may be.

ghost use Rattle.std.specs.Prelude.{◌≡◌, ℕ, ◌+◌, ◌<◌, ◌≤◌};
ghost use Rattle.prog_text.specs.Limits.{bracket_limit, operator_limit, brackets_after};
ghost use Rattle.prog_text.specs.Limits.{operators_after, too_deep};

use crate::lexing::token::{Sign, Token};

/// The most bytes of a text.
pub const MAX_TEXT_BYTES: usize = 1_048_576;

/// The most brackets that may be open.
pub const MAX_BRACKETS: usize = 16;

/// The most operators of a statement.
pub const MAX_OPERATORS: usize = 32;

/// The most bytes of a name.
pub const MAX_NAME_BYTES: usize = 32;

fn brackets_after(token: &Token<'_>, brackets: usize) -> usize
    requires { brackets ≤ bracket_limit }
    ensures { result ≡ brackets_after token.now brackets }
{
    match token {
        Token::Sign(Sign::Open | Sign::OpenKey | Sign::OpenBlock) => brackets + 1,
        Token::Sign(Sign::Close | Sign::CloseKey | Sign::CloseBlock) => brackets.saturating_sub(1),
        _ => brackets,
    }
}

fn operators_after(token: &Token<'_>, operators: usize) -> usize
    requires { operators ≤ operator_limit }
    ensures { result ≡ operators_after token.now operators }
{
    match token {
        Token::Sign(Sign::Plus | Sign::Minus | Sign::Times) => operators + 1,
        Token::Sign(Sign::Semicolon | Sign::OpenBlock | Sign::CloseBlock) => 0,
        _ => operators,
    }
}

/// How many tokens stand before the first that is too deep.
pub fn too_deep(tokens: &[Token<'_>]) -> Option<usize>
    ensures { result ≡ too_deep tokens.now }
{
    let mut brackets = 0;
    let mut operators = 0;
    for (index, token) in tokens.iter().enumerate() {
        brackets = brackets_after(token, brackets);
        operators = operators_after(token, operators);
        if brackets > MAX_BRACKETS || operators > MAX_OPERATORS {
            return Some(index);
        }
    }
    None
}
