//! The versions of a certificate's text.

/// The second version says how many accesses of each node stand in the body of an `each`. The
/// first stands for none.
#[derive(Clone, Copy)]
pub enum TextVersion {
    First,
    Second,
}
