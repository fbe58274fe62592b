//! Faults in words, for people: what a fault means, where it stands, and what to write instead.
//! Each kind of fault has a function, with an arm for each fault.
#![tactic(auto)]

mod expected;
mod laws;
mod limit_faults;
mod limits;
mod name_faults;
mod naming;
mod nearest;
mod open_blocks;
mod ordinals;
mod pointing;
mod reserved;
mod scope;
mod set_faults;
mod slips;
mod text_faults;

pub use laws::beginnings_are_those_of_the_grammar;
pub use naming::{
    cell_text, program_name, program_names, program_params, region_text, table_names,
};
pub use nearest::{known_names, nearest_name};
pub use ordinals::ordinal;
pub use pointing::point_at;
pub use set_faults::check_words;
pub use text_faults::text_words;
