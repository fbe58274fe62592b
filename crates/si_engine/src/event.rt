//! What a script makes happen, and what the engine answers.

use prog_tree::{Cause, Deed, Sequence};
use version_store::Clash;

/// An event. Instances are numbered from 0, in the order of the begins that succeeded.
#[derive(Drop)]
pub enum Event {
    /// An instance of the program of a number begins, with its arguments.
    Begin {
        program: usize,
        args: Sequence<i64>,
    },
    /// The same, and the instance sees the first `start` commits alone.
    BeginAt {
        start: u64,
        program: usize,
        args: Sequence<i64>,
    },
    /// An instance does everything up to and including its next store statement.
    Step(usize),
    /// An instance that is ready tries to commit.
    Commit(usize),
    /// An instance is withdrawn: it ends, and leaves no ending.
    Abort(usize),
    /// The versions go that neither an active instance sees nor one that will begin.
    Vacuum,
}

/// What an event answers.
#[derive(Debug, Drop)]
pub enum Reply {
    /// The new instance's number, and how many commits it sees.
    Begun { instance: usize, start: u64 },
    NoSuchProgram,
    WrongArguments,
    /// A begin at a number below the floor of the last vacuum.
    TooOld { floor: u64 },
    /// A begin at a number above that of the commits.
    TooNew { commits: u64 },
    /// A begin past the limit of 100,000 endings and active instances, or of 2^64 - 1 begins.
    Full,
    /// A store statement was done.
    Did(Deed),
    /// No statement is left; these were replied.
    Ready(Sequence<i64>),
    Aborted(Cause),
    /// The number of the commit, from 1.
    Committed(u64),
    /// A commit after the start changed or kept a cell too.
    Clashed(Clash),
    Withdrawn,
    /// How many versions went.
    Vacuumed(u64),
    NoSuchInstance,
    /// The instance has committed, clashed, aborted or was withdrawn before.
    Ended,
    /// No step has answered ready yet.
    NotReady,
}
