//! What a book keeps of instances that ended.

ghost use Rattle.std.specs.Prelude.{◌≡◌, ◌↔◌, IsTrue};

use prog_tree::{Cause, Sequence};
use version_store::Clash;

/// An instance that ended, and what it replied.
#[derive(Debug, Drop)]
pub struct HistoryRow {
    /// The number of its program.
    pub program: usize,
    pub args: Sequence<i64>,
    /// The number of commits that it sees.
    pub start: u64,
    pub replies: Sequence<i64>,
}

/// How an instance ended.
#[derive(Debug, Drop)]
pub enum Ending {
    /// It committed, with this number.
    Committed(u64),
    /// It was ready, but a commit above its start changed or kept a cell that it changes or keeps.
    Clashed { row: HistoryRow, clash: Clash },
    /// Its program aborted.
    Aborted { row: HistoryRow, cause: Cause },
}

/// Whether both are the same numbers: arguments, or replies.
pub fn same_numbers(numbers: &[i64], others: &[i64]) -> bool
    ensures { IsTrue result ↔ (numbers.now ≡ others.now) }
{
    numbers == others
}

impl HistoryRow {
    /// Whether both are of the same instance, with the same replies.
    pub fn is_same(&self, other: &HistoryRow) -> bool
        ensures { IsTrue result ↔ (self.now ≡ other.now) }
    {
        if self.program != other.program || self.start != other.start {
            return false;
        }
        if !same_numbers(self.args.as_slice(), other.args.as_slice()) {
            return false;
        }
        same_numbers(self.replies.as_slice(), other.replies.as_slice())
    }
}

impl Ending {
    /// Whether both are the same end of the same instance.
    pub fn is_same(&self, other: &Ending) -> bool
        ensures { IsTrue result ↔ (self.now ≡ other.now) }
    {
        match (self, other) {
            (Ending::Committed(number), Ending::Committed(n)) => number == n,
            (Ending::Clashed { row, clash }, Ending::Clashed { row: r, clash: c }) => {
                row.is_same(r) && clash == c
            }
            (Ending::Aborted { row, cause }, Ending::Aborted { row: r, cause: c }) => {
                row.is_same(r) && cause == c
            }
            _ => false,
        }
    }
}
