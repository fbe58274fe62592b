//! From tokens to a draft: the parser.

pub mod blocks;
pub mod conditions;
pub mod cursor;
pub mod expressions;
pub mod keys;
pub mod read_error;
pub mod sets;
pub mod statements;
