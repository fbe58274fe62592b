//! Tokens with their places.

use crate::lexing::token::Token;
use std::marker::Model;

/// The tokens of a text, and beside each how many bytes are left where it begins.
#[derive(Drop)]
pub struct PlacedTokens<'a> {
    tokens: Vec<Token<'a>>,
    lefts: Vec<usize>,
}

impl<'a> Model for PlacedTokens<'a> {
    ghost use Rattle.std.specs.Prelude.{◌≡◌, length, zip};
    ghost use Rattle.prog_text.specs.Lexing.{Placed};

    ghost Value = { Placed };

    ghost view = { λ p. zip p.tokens.items p.lefts.items };

    ghost invariant = { λ p. length p.tokens.items ≡ length p.lefts.items };
}

impl<'a> PlacedTokens<'a> {
    ghost use Rattle.std.specs.Prelude.{◌≡◌, ◌<◌, length, zip, slice_index};
    ghost use Rattle.prog_text.specs.Lexing.{kinds, lefts};

    pub fn new(tokens: Vec<Token<'a>>, lefts: Vec<usize>) -> Self
        requires { length tokens.items ≡ length lefts.items }
        ensures { result ≡ zip tokens.entry.items lefts.items }
    {
        PlacedTokens { tokens, lefts }
    }

    pub fn tokens(&self) -> &[Token<'a>]
        ensures { result.now ≡ kinds self.now }
    {
        &self.tokens
    }

    /// How many bytes are left where the token at this index begins.
    pub fn left(&self, index: usize) -> usize
        requires { index < length self.now }
        ensures { result ≡ slice_index (lefts self.now) index }
    {
        self.lefts[index]
    }
}
