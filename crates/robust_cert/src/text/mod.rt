//! The JSON text of a certificate, in both directions.

pub mod compact;
pub mod heads;
pub mod middles;
pub mod next_entries;
pub mod part;
pub mod pieces;
pub mod reading;
pub mod room;
pub mod seen;
pub mod shape;
pub mod slates;
pub mod tails;
pub mod version;
pub mod whole;
pub mod writing;
