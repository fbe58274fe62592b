//! From bytes to tokens.

pub mod letters;
pub mod lex_error;
pub mod lexer;
pub mod placed_tokens;
pub mod token;
pub mod words;
