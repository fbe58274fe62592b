//! Serial orders of the commits.

pub mod fits;
pub mod serial;
