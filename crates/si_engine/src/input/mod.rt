//! From a source to scripts, and to lists of rows and items.

pub mod bytes;
pub mod command;
pub mod events;
pub mod from_lines;
pub mod item_list;
pub mod line_fault;
pub mod line_words;
pub mod lines;
pub mod list_item;
pub mod list_line;
pub mod names;
pub mod number;
pub mod part_fault;
pub mod record_line;
pub mod records;
pub mod row_line;
pub mod script;
pub mod source;
