//! What a step of a run comes to.

ghost use Rattle.std.specs.Prelude.{◌≡◌};
ghost use Rattle.prog_run.specs.Step.{next_of, asked_after, end_after};

use crate::task::Asked;
use prog_tree::{Cell, Deed, End, Region};

/// What a step of a run comes to.
#[derive(Clone, Copy, Debug, PartialEq, Eq)]
pub enum Next {
    /// The run asks what this cell holds in its snapshot.
    Get(Cell),
    /// The run asks for the rows of this region in its snapshot.
    Scan(Region),
    /// A store statement is finished.
    Did(Deed),
    /// No store statement is left.
    Done(End),
}

/// What one store statement comes to, as the run keeps it.
#[derive(Clone, Copy, Debug)]
pub enum Step<'a> {
    /// It has to know this first.
    Asks(Asked<'a>),
    /// It is finished.
    Did(Deed),
    /// It ends the run, or none was left.
    Over(End),
}

impl<'a> Step<'a> {
    /// What the run answers to its caller.
    pub fn next(self) -> Next
        ensures { result ≡ next_of self.entry }
    {
        match self {
            Step::Asks(asked) => asked.next(),
            Step::Did(deed) => Next::Did(deed),
            Step::Over(end) => Next::Done(end),
        }
    }

    /// What waits for an answer after this step.
    pub fn asked(self) -> Option<Asked<'a>>
        ensures { result ≡ asked_after self.entry }
    {
        match self {
            Step::Asks(asked) => Some(asked),
            _ => None,
        }
    }

    /// The end, if this step was the last.
    pub fn end(self) -> Option<End>
        ensures { result ≡ end_after (next_of self.entry) }
    {
        match self {
            Step::Over(end) => Some(end),
            _ => None,
        }
    }
}
