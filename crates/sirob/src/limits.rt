//! How much is worked out for words alone.

/// The most nodes of a set that is planned for its words: the plan of a greater one would take as
/// long as its analysis.
pub const MAX_PLANNED_NODES: usize = 32;
