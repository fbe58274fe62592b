//! Reads and prints the text of a set of tables and programs.
#![tactic(auto)]

mod canonical;
mod fault;
mod laws;
mod lexing;
mod limits;
mod parsing;
mod reading;

pub use canonical::printing::print;
pub use fault::TextFault;
pub use laws::{flaws_are_the_first, tokens_are_the_longest};
pub use lexing::letters::{is_letter, is_space, is_word_byte};
pub use lexing::token::Sign;
pub use lexing::words::{Beginning, beginning_of, is_reserved, reserved_words};
pub use limits::{MAX_BRACKETS, MAX_NAME_BYTES, MAX_OPERATORS, MAX_TEXT_BYTES};
pub use parsing::parse;
