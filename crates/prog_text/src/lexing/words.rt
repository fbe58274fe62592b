//! The reserved words of the language, and what each of them begins.

ghost use Rattle.std.specs.Prelude.{◌≡◌, true, bytes_eq, map};
ghost use Rattle.std.specs.List.{list_all};
ghost use Rattle.std.specs.Map.{lookup};
ghost use Rattle.prog_text.specs.Lexing.{is_word_byte, word_token};
ghost use Rattle.prog_text.specs.Spelling.{reserved_words, spelling};
ghost use Rattle.prog_text.specs.Words.{beginning_of, begun_by, is_reserved};
ghost use Rattle.prog_text.specs.declared.lexing.token.Token.TheVariants as t;
ghost use Rattle.prog_text.specs.declared.lexing.words.TheConstants.{RESERVED};

use crate::lexing::token::{Sign, Token, Word};
use prog_tree::same_bytes;

/// What a word begins in the text of a set.
#[derive(Clone, Copy, Debug, PartialEq, Eq)]
pub enum Beginning {
    Table,
    Program,
    Statement,
}

// The words that are no names.
const RESERVED: [(&str, Sign); 24] = [
    ("table", Sign::Table),
    ("grow", Sign::Grow),
    ("program", Sign::Program),
    ("let", Sign::Let),
    ("get", Sign::Get),
    ("need", Sign::Need),
    ("count", Sign::Count),
    ("sum", Sign::Sum),
    ("lacks", Sign::Lacks),
    ("put", Sign::Put),
    ("insert", Sign::Insert),
    ("delete", Sign::Delete),
    ("keep", Sign::Keep),
    ("if", Sign::If),
    ("else", Sign::Else),
    ("each", Sign::Each),
    ("reply", Sign::Reply),
    ("abort", Sign::Abort),
    ("or", Sign::Or),
    ("and", Sign::And),
    ("not", Sign::Not),
    ("least", Sign::Least),
    ("greatest", Sign::Greatest),
    ("in", Sign::In),
];

// Bytes of a word are ASCII, so they are text as they stand.
fn word(bytes: &[u8]) -> Word<'_>
    requires { list_all is_word_byte bytes.now ≡ true }
    ensures { result ≡ bytes.now }
{
    Word::new(unsafe { str::from_utf8_unchecked(bytes) })
}

// The sign that a table has for a word, by its first entry.
fn lookup(mut table: &[(&str, Sign)], bytes: &[u8]) -> Option<Sign>
    ensures { result
        ≡ lookup (bytes_eq bytes.now) (map (λ entry. (entry.0.now, entry.1)) table.entry.now) }
{
    while let [entry, rest @ ..] = table {
        if same_bytes(bytes, entry.0.as_bytes()) {
            return Some(entry.1);
        }
        table = rest;
    }
    None
}

/// The token of a word: a reserved one, or a name.
pub fn word_token(bytes: &[u8]) -> Token<'_>
    requires { list_all is_word_byte bytes.now ≡ true }
    ensures { result ≡ word_token bytes.now }
{
    match lookup(&RESERVED, bytes) {
        Some(sign) => Token::Sign(sign),
        None => Token::Name(word(bytes)),
    }
}

/// The reserved words, in the order in which people are told of them.
pub fn reserved_words() -> &'static [(&'static str, Sign)]
    ensures words { map (λ entry. entry.0.now) result.now ≡ map spelling reserved_words }
    ensures signs { map (λ entry. t.Sign entry.1) result.now ≡ reserved_words }
{
    &RESERVED
}

/// Whether a word is reserved.
pub fn is_reserved(word: &[u8]) -> bool
    ensures { result ≡ is_reserved word.now }
{
    lookup(&RESERVED, word).is_some()
}

// What begins with a sign.
fn begun_by(sign: Sign) -> Option<Beginning>
    ensures { result ≡ begun_by (t.Sign sign) }
{
    match sign {
        Sign::Table => Some(Beginning::Table),
        Sign::Program => Some(Beginning::Program),
        Sign::Let
        | Sign::Lacks
        | Sign::Put
        | Sign::Insert
        | Sign::Delete
        | Sign::Keep
        | Sign::If
        | Sign::Each
        | Sign::Reply
        | Sign::Abort => Some(Beginning::Statement),
        _ => None,
    }
}

/// What a word begins.
pub fn beginning_of(word: &[u8]) -> Option<Beginning>
    ensures { result ≡ beginning_of word.now }
{
    begun_by(lookup(&RESERVED, word)?)
}
