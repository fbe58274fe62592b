//! What stops a worker at a job.

use history_book::{NoSuchTicket, ScanFault};
use prog_run::AnswerFault;
use std::alloc::AllocError;

/// Why a job has no outcome.
#[derive(Clone, Copy, PartialEq, Eq)]
pub enum Stop {
    /// The book does not know the instance, or takes the run for a foreign one; or the run did not
    /// take an answer.
    Lost,
    NoMemory,
}

impl From<AllocError> for Stop {
    ghost use Rattle.std.specs.Prelude.{◌≡◌};
    ghost use Rattle.job_worker.specs.declared.stop.Stop.TheVariants.{NoMemory};

    ghost from_gives = { λ _ e. e ≡ NoMemory };

    fn from(_: AllocError) -> Self {
        Stop::NoMemory
    }
}

impl From<NoSuchTicket> for Stop {
    ghost use Rattle.std.specs.Prelude.{◌≡◌};
    ghost use Rattle.job_worker.specs.declared.stop.Stop.TheVariants.{Lost};

    ghost from_gives = { λ _ e. e ≡ Lost };

    fn from(_: NoSuchTicket) -> Self {
        Stop::Lost
    }
}

impl From<ScanFault> for Stop {
    ghost use Rattle.std.specs.Prelude.{◌≡◌};
    ghost use Rattle.job_worker.specs.Stops.{stop_of_scan};

    ghost from_gives = { λ fault e. e ≡ stop_of_scan fault };

    fn from(fault: ScanFault) -> Self {
        match fault {
            ScanFault::NoSuchTicket => Stop::Lost,
            ScanFault::Memory => Stop::NoMemory,
        }
    }
}

impl From<AnswerFault> for Stop {
    ghost use Rattle.std.specs.Prelude.{◌≡◌};
    ghost use Rattle.job_worker.specs.Stops.{stop_of_answer};

    ghost from_gives = { λ fault e. e ≡ stop_of_answer fault };

    fn from(fault: AnswerFault) -> Self {
        match fault {
            AnswerFault::NotAsked | AnswerFault::BadRows => Stop::Lost,
            AnswerFault::Memory => Stop::NoMemory,
        }
    }
}
