//! Calls and what they came to, as keys of a map.

ghost use Rattle.std.specs.Prelude.{◌≡◌};
ghost use Rattle.si_workers.specs.Calls.{call_of, called_in};
ghost use Rattle.si_workers.specs.Keys.{call_at, cause_at, clash_at};

use history_book::{Clash, HistoryRow};
use job_list::Job;
use prog_tree::{Cause, Cell};

/// A program by its number, and its arguments.
#[derive(Clone, Copy, Debug, PartialEq, Eq, PartialOrd, Ord)]
pub struct CallKey<'c> {
    program: usize,
    args: &'c [i64],
}

/// A cause, in an order.
#[derive(Clone, Copy, Debug, PartialEq, Eq, PartialOrd, Ord)]
pub enum CauseKey {
    Asked,
    Missing(Cell),
    Present(Cell),
    Overflow,
}

/// A call and the cause of its abort.
#[derive(Clone, Copy, Debug, PartialEq, Eq, PartialOrd, Ord)]
pub struct AbortKey<'c> {
    call: CallKey<'c>,
    cause: CauseKey,
}

/// A call and its clash. The number tells most of them apart, so it is compared first.
#[derive(Clone, Copy, Debug, PartialEq, Eq, PartialOrd, Ord)]
pub struct ClashKey<'c> {
    number: u64,
    cell: Cell,
    call: CallKey<'c>,
}

impl<'c> CallKey<'c> {
    /// The call of a job.
    pub fn job(job: &'c Job) -> Self
        ensures { call_at result ≡ call_of job.now }
    {
        CallKey {
            program: job.program,
            args: job.args.as_slice(),
        }
    }

    /// The call of a row.
    pub fn row(row: &'c HistoryRow) -> Self
        ensures { call_at result ≡ called_in row.now }
    {
        CallKey {
            program: row.program,
            args: row.args.as_slice(),
        }
    }
}

impl CauseKey {
    fn of(cause: Cause) -> Self
        ensures { cause_at result ≡ cause }
    {
        match cause {
            Cause::Asked => CauseKey::Asked,
            Cause::Missing(cell) => CauseKey::Missing(cell),
            Cause::Present(cell) => CauseKey::Present(cell),
            Cause::Overflow => CauseKey::Overflow,
        }
    }
}

impl<'c> AbortKey<'c> {
    pub fn of(call: CallKey<'c>, cause: Cause) -> Self
        ensures call { result.call ≡ call.entry }
        ensures cause { cause_at result.cause ≡ cause }
    {
        AbortKey {
            call,
            cause: CauseKey::of(cause),
        }
    }
}

impl<'c> ClashKey<'c> {
    pub fn of(call: CallKey<'c>, clash: Clash) -> Self
        ensures call { result.call ≡ call.entry }
        ensures clash { clash_at result ≡ clash }
    {
        ClashKey {
            number: clash.number,
            cell: clash.cell,
            call,
        }
    }
}
