//! The reading of texts for people, which may have any fault: words, signs, blanks and comments;
//! lines and columns, a line with a mark under a place; and where tables, programs, statements,
//! records and jobs begin.
#![tactic(auto)]

mod byte_kind;
mod landmark;
mod limits;
mod listing;
mod place;
mod quote;
mod reading;
mod set_text;
mod tokens;

pub use landmark::{job_place, record_place};
pub use listing::{bracketed, push_listed};
pub use place::{before, behind, column, ends_line, feeds, line_at, line_front, line_number};
pub use quote::{point_out, visible_text};
pub use reading::{
    begins_word, behind_word, first_word, last_end, short_word, stands_free, without_comments,
};
pub use set_text::SetText;
pub use tokens::{
    as_text, begins_token, first_token, key_place, last_token, second_token, table_name,
};
