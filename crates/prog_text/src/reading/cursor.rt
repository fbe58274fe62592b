//! The parser's place among the tokens.
ghost use Rattle.std.specs.Prelude.{◌≡◌, [], Result, Ok, Err};
ghost use Rattle.prog_text.specs.Cursor.{Reads, Eats, itself};
ghost use Rattle.prog_text.specs.Reading.{Gives, expect, end_at, name_at, next_at};

use crate::lexing::token::{Sign, Token};
use crate::reading::read_error::{ReadError, unexpected};
use prog_tree::Name;
use std::alloc::Global;

/// The tokens that are still to be read.
#[derive(Drop)]
pub struct TokenCursor<'a> {
    /// Where what is read finds its memory.
    pub alloc: Global,
    pub tokens: &'a [Token<'a>],
}

impl<'a> TokenCursor<'a> {
    /// Reads a token, whichever it is.
    pub fn next(&mut self) -> Result<&'a Token<'a>, ReadError>
        ensures { Reads (λ token. token.now) next_at result self.old self.new }
    {
        let [first, rest @ ..] = self.tokens else {
            return Err(unexpected(self.tokens));
        };
        self.tokens = rest;
        Ok(first)
    }

    /// Reads a sign or word, where it comes next.
    pub fn eat(&mut self, sign: Sign) -> bool
        ensures { Eats sign result self.old self.new }
    {
        let [first, rest @ ..] = self.tokens else {
            return false;
        };
        match first {
            Token::Sign(found) if *found == sign => {
                self.tokens = rest;
                true
            }
            _ => false,
        }
    }

    /// Reads a sign or word that has to come next.
    pub fn expect(&mut self, sign: Sign) -> Result<(), ReadError>
        ensures { Reads itself (expect sign) result self.old self.new }
    {
        if self.eat(sign) {
            Ok(())
        } else {
            Err(unexpected(self.tokens))
        }
    }

    /// Reads a name.
    pub fn name(&mut self) -> Result<Name, ReadError>
        ensures { Reads itself name_at result self.old self.new }
    {
        let tokens = self.tokens;
        match self.next()? {
            Token::Name(word) => Ok(Name::new(self.alloc, word.as_str())?),
            _ => Err(unexpected(tokens)),
        }
    }

    /// No token may be left.
    pub fn end(&self) -> Result<(), ReadError>
        ensures { Gives (λ ended. (tt, [])) result (end_at self.now.tokens.now) }
    {
        match self.tokens {
            [] => Ok(()),
            _ => Err(unexpected(self.tokens)),
        }
    }
}
