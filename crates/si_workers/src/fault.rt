//! Why work was refused, or did not come to what it has to.
ghost use Rattle.std.specs.Prelude.{◌≡◌};
ghost use Rattle.si_workers.specs.Texts.{worker_fault_of};

use history_book::{BeginFault, Book};
use job_list::JobOutcome;
use prog_tree::Sequence;
use std::error::Error;
use std::fmt;

/// Why an instance that has to see a commit could not be begun.
#[derive(Clone, Copy, Debug, PartialEq, Eq)]
pub enum BeginAfterFault {
    /// The book has only so many commits. The instance was withdrawn again.
    Behind { commits: u64 },
    /// The book refused the begin.
    Refused(BeginFault),
}

impl fmt::Display for BeginAfterFault {
    ghost use Rattle.std.specs.Prelude.{Some};
    ghost use Rattle.si_workers.specs.Texts.{begin_after_fault_text};

    ghost output = { λ fault. Some (begin_after_fault_text fault) };

    fn fmt<W: fmt::Write>(&self, f: &mut fmt::Formatter<W>) -> fmt::Result {
        match self {
            BeginAfterFault::Behind { commits } => write!(f, "behind at {commits}"),
            BeginAfterFault::Refused(fault) => write!(f, "{fault}"),
        }
    }
}

impl Error for BeginAfterFault {}

/// Why the jobs were not done as they have to be.
#[derive(Debug, Drop)]
pub enum WorkFault<'a> {
    /// There are no workers, or more than 8.
    Workers,
    /// There are more than 100,000 jobs.
    TooManyJobs,
    /// Only so many threads could be started. They did all jobs; with none started none was done.
    NoThread {
        started: usize,
        outcomes: Sequence<JobOutcome>,
        book: Book<'a>,
    },
    /// The outcome of this job does not stand in the book; or job 0, where all stand and something
    /// else does not correspond. Without an outcome there is none of this job, or more than one.
    Broken {
        job: usize,
        outcome: Option<JobOutcome>,
        book: Book<'a>,
    },
    /// There was no memory for it. Without a book it could not be made.
    Memory {
        book: Option<Book<'a>>,
    },
}

impl fmt::Display for WorkFault<'_> {
    ghost use Rattle.std.specs.Prelude.{Some};
    ghost use Rattle.si_workers.specs.Texts.{work_fault_text};

    ghost output = { λ fault. Some (work_fault_text fault) };

    fn fmt<W: fmt::Write>(&self, f: &mut fmt::Formatter<W>) -> fmt::Result {
        write!(f, "{}", WorkerFault::of(self))
    }
}

impl Error for WorkFault<'_> {}

/// What is told of a fault of workers: all but the outcomes and the book.
#[derive(Clone, Copy, Debug, PartialEq, Eq)]
pub enum WorkerFault {
    /// There are no workers, or too many.
    Workers,
    TooManyJobs,
    /// Only so many threads could be started.
    NoThread { started: usize },
    /// The book does not hold what was told of this job.
    Broken { job: usize },
    Memory,
}

impl WorkerFault {
    /// What is told of this fault.
    pub fn of(fault: &WorkFault<'_>) -> Self
        ensures { result ≡ worker_fault_of fault.now }
    {
        match fault {
            WorkFault::Workers => WorkerFault::Workers,
            WorkFault::TooManyJobs => WorkerFault::TooManyJobs,
            WorkFault::NoThread { started, .. } => WorkerFault::NoThread { started: *started },
            WorkFault::Broken { job, .. } => WorkerFault::Broken { job: *job },
            WorkFault::Memory { .. } => WorkerFault::Memory,
        }
    }
}

impl fmt::Display for WorkerFault {
    ghost use Rattle.std.specs.Prelude.{Some};
    ghost use Rattle.si_workers.specs.Texts.{worker_fault_text};

    ghost output = { λ fault. Some (worker_fault_text fault) };

    fn fmt<W: fmt::Write>(&self, f: &mut fmt::Formatter<W>) -> fmt::Result {
        match self {
            WorkerFault::Workers => f.write_str("W1"),
            WorkerFault::TooManyJobs => f.write_str("W5"),
            WorkerFault::NoThread { .. } => f.write_str("W2"),
            WorkerFault::Broken { job } => write!(f, "W3 {job}"),
            WorkerFault::Memory => f.write_str("memory"),
        }
    }
}
