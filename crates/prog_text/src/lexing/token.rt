//! Tokens.

ghost use Rattle.std.specs.Prelude.{◌≡◌, ◌^◌, ◌<◌, ◌↔◌, pos, IsSome, IfSome};
ghost use Rattle.std.proofs.Common.{neg_ℤ};

use std::marker::Model;

/// A name as it stands in the text.
#[derive(Debug, Drop)]
pub struct Word<'a> {
    text: &'a str,
}

impl<'a> Model for Word<'a> {
    ghost use Rattle.std.specs.Prelude.{List, ℕ};

    ghost Value = { List ℕ };

    ghost view = { λ w. w.text.now };
}

impl<'a> Word<'a> {
    pub fn new(text: &'a str) -> Self
        ensures { result ≡ text.now }
    {
        Word { text }
    }

    pub fn as_str(&self) -> &'a str
        ensures { result.now ≡ self.now }
    {
        self.text
    }
}

/// The value of a number's digits: below 2^63, so that it fits an i64 with either sign.
#[derive(Clone, Copy, Debug)]
pub struct Magnitude {
    value: u64,
}

impl Model for Magnitude {
    ghost use Rattle.std.specs.Prelude.{ℕ, ◌<◌, ◌^◌};

    ghost Value = { ℕ };

    ghost view = { λ m. m.value };

    ghost invariant = { λ m. m.value < 2 ^ 63 };

    ghost inverse = { λ n. record { value = n } };
}

impl Magnitude {
    pub fn new(value: u64) -> Option<Self>
        ensures fits { IsSome result ↔ (value < 2 ^ 63) }
        ensures value { IfSome result (λ magnitude. magnitude ≡ value) }
    {
        if value < 1 << 63 {
            Some(Magnitude { value })
        } else {
            None
        }
    }

    pub fn literal(self) -> i64
        ensures { result ≡ pos self }
    {
        self.value as i64
    }

    pub fn negated(self) -> i64
        ensures { result ≡ neg_ℤ (pos self) }
    {
        -(self.value as i64)
    }
}

/// A token of the program text.
#[derive(Debug, Drop)]
pub enum Token<'a> {
    Name(Word<'a>),
    Number(Magnitude),
    Sign(Sign),
}

/// A reserved word, or what is neither a word nor a number.
#[derive(Clone, Copy, Debug, PartialEq, Eq)]
pub enum Sign {
    // Reserved words, each spelled as its name in small letters.
    Table,
    Grow,
    Program,
    Let,
    Get,
    Need,
    Count,
    Sum,
    Lacks,
    Put,
    Insert,
    Delete,
    Keep,
    If,
    Else,
    Reply,
    Abort,
    Or,
    And,
    Not,
    Least,
    Greatest,
    Each,
    In,

    // Signs, each with its spelling.
    /// `(`
    Open,
    /// `)`
    Close,
    /// `[`
    OpenKey,
    /// `]`
    CloseKey,
    /// `{`
    OpenBlock,
    /// `}`
    CloseBlock,
    /// `,`
    Comma,
    /// `;`
    Semicolon,
    /// `=`
    Equals,
    /// `+`
    Plus,
    /// `-`
    Minus,
    /// `*`
    Times,
    /// `..`
    Dots,
    /// `<`
    Less,
    /// `<=`
    LessEqual,
    /// `>`
    Greater,
    /// `>=`
    GreaterEqual,
    /// `==`
    EqualEqual,
    /// `!=`
    NotEqual,
}
