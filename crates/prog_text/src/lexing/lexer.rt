//! From the bytes of a text to its tokens.

ghost use Rattle.std.specs.Prelude.{◌≡◌, ℕ, ◌+◌, ◌<◌, ◌≤◌, length, drop, slice_index, IfOk, true};
ghost use Rattle.std.specs.List.{prefix_len};
ghost use Rattle.prog_text.specs.Lexing.{is_letter, is_digit, is_word_byte, is_comment_byte};
ghost use Rattle.prog_text.specs.Lexing.{value_within, Gives, piece_at, word_at, number_at};
ghost use Rattle.prog_text.specs.Lexing.{sign_at, tokens_of};

use crate::lexing::letters::{is_digit, is_letter, is_space, is_word_byte};
use crate::lexing::lex_error::{Flaw, LexError};
use crate::lexing::placed_tokens::PlacedTokens;
use crate::lexing::token::{Magnitude, Sign, Token};
use crate::lexing::words::word_token;
use crate::limits::MAX_NAME_BYTES;
use std::alloc::Global;

// What stands at the front of bytes, and the bytes behind it; no token for a space or a comment.
#[derive(Drop)]
struct Lexeme<'a> {
    token: Option<Token<'a>>,
    rest: &'a [u8],
}

fn is_comment_byte(byte: u8) -> bool
    ensures { result ≡ is_comment_byte byte }
{
    byte < 128 && byte != b'\n'
}

fn word_len(bytes: &[u8]) -> usize
    ensures value { result ≡ prefix_len is_word_byte bytes.now }
    ensures within { result ≤ length bytes.now }
{
    bytes.iter().take_while(|byte| is_word_byte(**byte)).count()
}

fn digits_len(bytes: &[u8]) -> usize
    ensures value { result ≡ prefix_len is_digit bytes.now }
    ensures within { result ≤ length bytes.now }
{
    bytes.iter().take_while(|byte| is_digit(**byte)).count()
}

fn comment_len(bytes: &[u8]) -> usize
    ensures value { result ≡ prefix_len is_comment_byte bytes.now }
    ensures within { result ≤ length bytes.now }
{
    bytes
        .iter()
        .take_while(|byte| is_comment_byte(**byte))
        .count()
}

// The value of digits, or None past the greatest number.
fn value(digits: &[u8]) -> Option<Magnitude>
    ensures { result ≡ value_within digits.now }
{
    let mut value: u64 = 0;
    for byte in digits {
        value = value
            .saturating_mul(10)
            .saturating_add(u64::from(byte.saturating_sub(b'0')));
    }
    Magnitude::new(value)
}

#[tactic(auto, unfolding(crate::specs::Lexing::sign_at))]
fn sign_piece(bytes: &[u8]) -> Result<Lexeme<'_>, LexError>
    ensures reads { Gives (λ p. (p.token, p.rest.now)) result (sign_at bytes.now) }
    ensures shorter { IfOk result (λ p. length p.rest.now < length bytes.now) }
{
    let (sign, rest) = match bytes {
        [b'.', b'.', rest @ ..] => (Sign::Dots, rest),
        [b'<', b'=', rest @ ..] => (Sign::LessEqual, rest),
        [b'>', b'=', rest @ ..] => (Sign::GreaterEqual, rest),
        [b'=', b'=', rest @ ..] => (Sign::EqualEqual, rest),
        [b'!', b'=', rest @ ..] => (Sign::NotEqual, rest),
        [b'(', rest @ ..] => (Sign::Open, rest),
        [b')', rest @ ..] => (Sign::Close, rest),
        [b'[', rest @ ..] => (Sign::OpenKey, rest),
        [b']', rest @ ..] => (Sign::CloseKey, rest),
        [b'{', rest @ ..] => (Sign::OpenBlock, rest),
        [b'}', rest @ ..] => (Sign::CloseBlock, rest),
        [b',', rest @ ..] => (Sign::Comma, rest),
        [b';', rest @ ..] => (Sign::Semicolon, rest),
        [b'=', rest @ ..] => (Sign::Equals, rest),
        [b'+', rest @ ..] => (Sign::Plus, rest),
        [b'-', rest @ ..] => (Sign::Minus, rest),
        [b'*', rest @ ..] => (Sign::Times, rest),
        [b'<', rest @ ..] => (Sign::Less, rest),
        [b'>', rest @ ..] => (Sign::Greater, rest),
        [byte, ..] if *byte >= 128 => return Err(at(Flaw::NotAscii, bytes)),
        _ => return Err(at(Flaw::UnknownByte, bytes)),
    };
    Ok(Lexeme {
        token: Some(Token::Sign(sign)),
        rest,
    })
}

// This flaw, where these bytes begin.
fn at(flaw: Flaw, bytes: &[u8]) -> LexError
    ensures { result ≡ LexError.At flaw (length bytes.now) }
{
    LexError::At {
        flaw,
        left: bytes.len(),
    }
}

#[tactic(auto, unfolding(crate::specs::Lexing::word_at))]
fn word_piece(bytes: &[u8]) -> Result<Lexeme<'_>, LexError>
    requires begins { 0 < length bytes.now }
    requires letter { is_letter (slice_index bytes.now 0) ≡ true }
    ensures reads { Gives (λ p. (p.token, p.rest.now)) result (word_at bytes.now) }
    ensures shorter { IfOk result (λ p. length p.rest.now < length bytes.now) }
{
    let len = word_len(&bytes[1..]) + 1;
    if len > MAX_NAME_BYTES {
        return Err(at(Flaw::NameTooLong, bytes));
    }
    let (word, rest) = bytes.split_at(len);
    Ok(Lexeme {
        token: Some(word_token(word)),
        rest,
    })
}

#[tactic(auto, unfolding(crate::specs::Lexing::number_at))]
fn number_piece(bytes: &[u8]) -> Result<Lexeme<'_>, LexError>
    requires { 0 < length bytes.now }
    ensures reads { Gives (λ p. (p.token, p.rest.now)) result (number_at bytes.now) }
    ensures shorter { IfOk result (λ p. length p.rest.now < length bytes.now) }
{
    let len = digits_len(&bytes[1..]) + 1;
    let (digits, rest) = bytes.split_at(len);
    match value(digits) {
        Some(magnitude) => Ok(Lexeme {
            token: Some(Token::Number(magnitude)),
            rest,
        }),
        None => Err(at(Flaw::NumberOutOfRange, bytes)),
    }
}

#[tactic(auto, unfolding(crate::specs::Lexing::piece_at))]
fn next_piece(bytes: &[u8]) -> Result<Lexeme<'_>, LexError>
    requires { 0 < length bytes.now }
    ensures reads { Gives (λ p. (p.token, p.rest.now)) result (piece_at bytes.now) }
    ensures shorter { IfOk result (λ p. length p.rest.now < length bytes.now) }
{
    let first = bytes[0];
    if is_space(first) {
        Ok(Lexeme {
            token: None,
            rest: &bytes[1..],
        })
    } else if first == b'#' {
        let comment = &bytes[1..];
        Ok(Lexeme {
            token: None,
            rest: &comment[comment_len(comment)..],
        })
    } else if is_letter(first) {
        word_piece(bytes)
    } else if is_digit(first) {
        number_piece(bytes)
    } else {
        sign_piece(bytes)
    }
}

/// Cuts a text into tokens, or gives its first flaw.
#[tactic(auto, unfolding(crate::specs::Lexing::tokens_from))]
pub fn tokens(alloc: Global, bytes: &[u8]) -> Result<PlacedTokens<'_>, LexError>
    ensures { Gives (λ p. p) result (tokens_of bytes.now) }
{
    let mut tokens = Vec::new(alloc);
    let mut lefts = Vec::new(alloc);
    let mut rest = bytes;
    while !rest.is_empty() {
        let Lexeme {
            token,
            rest: behind,
        } = next_piece(rest)?;
        if let Some(token) = token {
            tokens.push(token)?;
            lefts.push(rest.len())?;
        }
        rest = behind;
    }
    Ok(PlacedTokens::new(tokens, lefts))
}
