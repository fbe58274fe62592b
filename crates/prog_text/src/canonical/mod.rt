//! The canonical text of a draft.

pub mod margin;
pub mod printer;
pub mod printing;
