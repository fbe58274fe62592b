//! What an analysis finds.

use dep_graph::Danger;
use robust_cert::Certificate;

/// What an analysis finds of a set.
#[derive(Drop)]
pub enum Finding {
    /// No dangerous structure exists, as the certificate shows.
    Robust(Certificate),
    /// The least dangerous structure.
    Refused(Danger),
}
