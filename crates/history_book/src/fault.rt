//! Why calls of a book are refused, and what they hand back.

ghost use Rattle.std.specs.Prelude.{◌≡◌};
ghost use Rattle.history_book.specs.Refusals.{commit_fault_of, end_fault_of};

use crate::instances::ticket::Ticket;
use prog_run::Run;
use std::alloc::AllocError;
use std::error::Error;
use std::fmt;
use version_store::Clash;

/// Why an instance could not be begun.
#[derive(Clone, Copy, Debug, PartialEq, Eq)]
pub enum BeginFault {
    /// The set has no program of the number.
    NoSuchProgram,
    /// There are more or fewer arguments than parameters.
    WrongArguments,
    /// It was to start below the last vacuum's floor.
    TooOld { floor: u64 },
    /// It was to start above the number of commits.
    TooNew { commits: u64 },
    /// Endings and active instances are 100,000 together, or 2^64 - 1 begins have succeeded.
    Full,
    /// There was no memory for it.
    Memory,
}

impl From<AllocError> for BeginFault {
    ghost use Rattle.std.specs.Prelude.{◌≡◌};
    ghost use Rattle.history_book.specs.declared.fault.BeginFault.TheVariants.{Memory};

    ghost from_gives = { λ _ e. e ≡ Memory };

    fn from(_: AllocError) -> Self {
        BeginFault::Memory
    }
}

impl fmt::Display for BeginFault {
    ghost use Rattle.std.specs.Prelude.{Some};
    ghost use Rattle.history_book.specs.Texts.{begin_fault_text};

    ghost output = { λ fault. Some (begin_fault_text fault) };

    fn fmt<W: fmt::Write>(&self, f: &mut fmt::Formatter<W>) -> fmt::Result {
        match self {
            BeginFault::NoSuchProgram => f.write_str("no such program"),
            BeginFault::WrongArguments => f.write_str("wrong arguments"),
            BeginFault::TooOld { floor } => write!(f, "too old {floor}"),
            BeginFault::TooNew { commits } => write!(f, "too new {commits}"),
            BeginFault::Full => f.write_str("full"),
            BeginFault::Memory => f.write_str("memory"),
        }
    }
}

impl Error for BeginFault {}

/// The ticket's number and start are those of no active instance.
#[derive(Clone, Copy, Debug, PartialEq, Eq)]
pub struct NoSuchTicket;

impl fmt::Display for NoSuchTicket {
    ghost use Rattle.std.specs.Prelude.{Some, codes};

    ghost output = { λ _. Some (codes "no such ticket") };

    fn fmt<W: fmt::Write>(&self, f: &mut fmt::Formatter<W>) -> fmt::Result {
        f.write_str("no such ticket")
    }
}

impl Error for NoSuchTicket {}

/// Why a region could not be read.
#[derive(Clone, Copy, Debug, PartialEq, Eq)]
pub enum ScanFault {
    /// The ticket's number and start are those of no active instance.
    NoSuchTicket,
    /// There was no memory for the rows.
    Memory,
}

impl From<AllocError> for ScanFault {
    ghost use Rattle.std.specs.Prelude.{◌≡◌};
    ghost use Rattle.history_book.specs.declared.fault.ScanFault.TheVariants.{Memory};

    ghost from_gives = { λ _ e. e ≡ Memory };

    fn from(_: AllocError) -> Self {
        ScanFault::Memory
    }
}

impl fmt::Display for ScanFault {
    ghost use Rattle.std.specs.Prelude.{Some};
    ghost use Rattle.history_book.specs.Texts.{scan_fault_text};

    ghost output = { λ fault. Some (scan_fault_text fault) };

    fn fmt<W: fmt::Write>(&self, f: &mut fmt::Formatter<W>) -> fmt::Result {
        f.write_str(match self {
            ScanFault::NoSuchTicket => "no such ticket",
            ScanFault::Memory => "memory",
        })
    }
}

impl Error for ScanFault {}

/// Where a run differs from the instance that it is handed in for.
#[derive(Clone, Copy, Debug, PartialEq, Eq)]
pub enum Difference {
    /// In its program, its arguments or the tables of its set.
    Program,
    /// In the look of this number, the first that did not find what the snapshot holds.
    Look(usize),
}

/// A ticket and a run that were not used.
#[derive(Debug, Drop)]
pub struct Unused<'a> {
    pub ticket: Ticket,
    pub run: Run<'a>,
}

/// Why an instance did not commit.
#[derive(Debug, Drop)]
pub enum CommitFault<'a> {
    /// The ticket's number and start are those of no active instance.
    NoSuchTicket(Unused<'a>),
    /// The run is not over, or it aborted.
    NotReady(Unused<'a>),
    /// The run is not one of the instance.
    ForeignRun(Difference, Unused<'a>),
    /// There was no memory for it.
    Memory(Unused<'a>),
    /// A commit above the instance's start changed or kept a cell too. The instance has ended.
    Clashed(Clash),
}

impl fmt::Display for CommitFault<'_> {
    ghost use Rattle.std.specs.Prelude.{Some};
    ghost use Rattle.history_book.specs.Texts.{commit_fault_text};

    ghost output = { λ fault. Some (commit_fault_text fault) };

    fn fmt<W: fmt::Write>(&self, f: &mut fmt::Formatter<W>) -> fmt::Result {
        match self {
            CommitFault::NoSuchTicket(_) => f.write_str("no such ticket"),
            CommitFault::NotReady(_) => f.write_str("not ready"),
            CommitFault::ForeignRun(_, _) => f.write_str("foreign run"),
            CommitFault::Memory(_) => f.write_str("memory"),
            CommitFault::Clashed(clash) => write!(f, "clashed with {}", clash.number),
        }
    }
}

impl Error for CommitFault<'_> {}

/// Why an instance did not commit by its own run.
#[derive(Clone, Copy, Debug, PartialEq, Eq)]
pub enum OwnCommitFault {
    /// There was no memory for it.
    Memory,
    /// A commit above the instance's start changed or kept a cell too. The instance has ended.
    Clashed(Clash),
}

impl From<AllocError> for OwnCommitFault {
    ghost use Rattle.std.specs.Prelude.{◌≡◌};
    ghost use Rattle.history_book.specs.declared.fault.OwnCommitFault.TheVariants.{Memory};

    ghost from_gives = { λ _ e. e ≡ Memory };

    fn from(_: AllocError) -> Self {
        OwnCommitFault::Memory
    }
}

impl fmt::Display for OwnCommitFault {
    ghost use Rattle.std.specs.Prelude.{Some};
    ghost use Rattle.history_book.specs.Texts.{own_commit_fault_text};

    ghost output = { λ fault. Some (own_commit_fault_text fault) };

    fn fmt<W: fmt::Write>(&self, f: &mut fmt::Formatter<W>) -> fmt::Result {
        match self {
            OwnCommitFault::Memory => f.write_str("memory"),
            OwnCommitFault::Clashed(clash) => write!(f, "clashed with {}", clash.number),
        }
    }
}

impl Error for OwnCommitFault {}

/// Why an instance did not end as an aborted one.
#[derive(Debug, Drop)]
pub enum EndFault<'a> {
    /// The ticket's number and start are those of no active instance.
    NoSuchTicket(Unused<'a>),
    /// The run is not over, or it is ready.
    NotAborted(Unused<'a>),
    /// The run is not one of the instance.
    ForeignRun(Difference, Unused<'a>),
    /// There was no memory for it.
    Memory(Unused<'a>),
}

impl fmt::Display for EndFault<'_> {
    ghost use Rattle.std.specs.Prelude.{Some};
    ghost use Rattle.history_book.specs.Texts.{end_fault_text};

    ghost output = { λ fault. Some (end_fault_text fault) };

    fn fmt<W: fmt::Write>(&self, f: &mut fmt::Formatter<W>) -> fmt::Result {
        match self {
            EndFault::NoSuchTicket(_) => f.write_str("no such ticket"),
            EndFault::NotAborted(_) => f.write_str("not aborted"),
            EndFault::ForeignRun(_, _) => f.write_str("foreign run"),
            EndFault::Memory(_) => f.write_str("memory"),
        }
    }
}

impl Error for EndFault<'_> {}

/// Why a ticket and a run do not end an instance.
#[derive(Clone, Copy, Debug, PartialEq, Eq)]
pub enum EndRefusal {
    /// The ticket's number and start are those of no active instance.
    NoSuchTicket,
    /// The run has not ended as it has to.
    WrongEnd,
    /// The run is not one of the instance.
    ForeignRun(Difference),
}

impl EndRefusal {
    /// The refusal of a commit, with what it hands back.
    pub fn of_commit<'a>(self, unused: Unused<'a>) -> CommitFault<'a>
        ensures { result ≡ commit_fault_of self unused.entry }
    {
        match self {
            EndRefusal::NoSuchTicket => CommitFault::NoSuchTicket(unused),
            EndRefusal::WrongEnd => CommitFault::NotReady(unused),
            EndRefusal::ForeignRun(place) => CommitFault::ForeignRun(place, unused),
        }
    }

    /// The refusal of an end, with what it hands back.
    pub fn of_end<'a>(self, unused: Unused<'a>) -> EndFault<'a>
        ensures { result ≡ end_fault_of self unused.entry }
    {
        match self {
            EndRefusal::NoSuchTicket => EndFault::NoSuchTicket(unused),
            EndRefusal::WrongEnd => EndFault::NotAborted(unused),
            EndRefusal::ForeignRun(place) => EndFault::ForeignRun(place, unused),
        }
    }
}
