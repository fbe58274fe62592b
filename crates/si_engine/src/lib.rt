//! The event machine over a set of programs, and scripts that hand it events.
#![tactic(auto)]

mod active;
mod engine;
mod event;
mod input;
mod limits;
mod output;
mod port;
mod robust;
mod run;
mod witness;

pub use engine::Engine;
pub use event::{Event, Reply};
pub use input::bytes::Bytes;
pub use input::events::{EventReader, Events, NextEvent};
pub use input::from_lines::{FromLines, read_lines, read_part};
pub use input::item_list::ItemList;
pub use input::line_fault::LineFault;
pub use input::line_words::{LineWord, LineWords, line_words};
pub use input::lines::{cut, without_return};
pub use input::list_item::ListItem;
pub use input::names::program_number;
pub use input::number::{number, numbers, unsigned};
pub use input::part_fault::PartFault;
pub use input::records::{Records, read_records};
pub use input::script::{Script, read_script};
pub use input::source::{DeviceFault, InputFault, Source, read_whole};
pub use limits::{MAX_EVENTS, MAX_INPUT_BYTES, MAX_READS, MAX_STEPS};
pub use output::finding::{Serializability, push_findings_before, push_rows};
pub use output::sink::{Sink, write_or, write_whole};
pub use port::Port;
pub use robust::laws::{
    concurrent_dependencies_are_vulnerable, cycles_are_dangerous, cycles_end_in_two_missed_changes,
    dependencies_are_static_edges, grow_tables_gain_each_row_once, instances_follow_nodes,
    safe_sets_have_no_cycle, states_have_i64_rows, written_orders_are_serial,
};
pub use robust::run::{Outcome, order_of, run_robust};
pub use robust::script::run_robust_script_before;
pub use run::{run_script, run_script_before};
pub use witness::{NoWitness, Witness};
