//! Instances that have not ended.

use prog_tree::Sequence;
use std::marker::Model;

/// A program by its number, its arguments, and the number of commits that it sees.
#[derive(Debug, Drop)]
pub struct Active {
    pub program: usize,
    pub args: Sequence<i64>,
    pub start: u64,
}

impl Model for Active {
    ghost use Rattle.history_book.specs.History.{Instance};

    ghost Value = { Instance };

    ghost view = { λ a. record { program = a.program; args = a.args; start = a.start } };
}
