//! Why a run is not made, or an answer not taken.

use std::alloc::AllocError;
use std::error::Error;
use std::fmt;

/// Why a run could not be made.
#[derive(Clone, Copy, Debug, PartialEq, Eq)]
pub enum RunFault {
    /// The set has no program of the number.
    NoSuchProgram,
    /// There are more or fewer arguments than parameters.
    WrongArguments,
    /// There was no memory for it.
    Memory,
}

impl From<AllocError> for RunFault {
    ghost use Rattle.std.specs.Prelude.{◌≡◌};
    ghost use Rattle.prog_run.specs.declared.fault.RunFault.TheVariants.{Memory};

    ghost from_gives = { λ _ e. e ≡ Memory };

    fn from(_: AllocError) -> Self {
        RunFault::Memory
    }
}

impl fmt::Display for RunFault {
    ghost use Rattle.std.specs.Prelude.{Some};
    ghost use Rattle.prog_run.specs.Texts.{run_fault_text};

    ghost output = { λ fault. Some (run_fault_text fault) };

    fn fmt<W: fmt::Write>(&self, f: &mut fmt::Formatter<W>) -> fmt::Result {
        f.write_str(match self {
            RunFault::NoSuchProgram => "no such program",
            RunFault::WrongArguments => "wrong arguments",
            RunFault::Memory => "memory",
        })
    }
}

impl Error for RunFault {}

/// Why an answer was not taken.
#[derive(Clone, Copy, Debug, PartialEq, Eq)]
pub enum AnswerFault {
    /// The run has not asked for such an answer.
    NotAsked,
    /// A row lies outside the region that was asked for.
    BadRows,
    /// There was no memory for it. The run is as before.
    Memory,
}

impl From<AllocError> for AnswerFault {
    ghost use Rattle.std.specs.Prelude.{◌≡◌};
    ghost use Rattle.prog_run.specs.declared.fault.AnswerFault.TheVariants.{Memory};

    ghost from_gives = { λ _ e. e ≡ Memory };

    fn from(_: AllocError) -> Self {
        AnswerFault::Memory
    }
}

impl fmt::Display for AnswerFault {
    ghost use Rattle.std.specs.Prelude.{Some};
    ghost use Rattle.prog_run.specs.Texts.{answer_fault_text};

    ghost output = { λ fault. Some (answer_fault_text fault) };

    fn fmt<W: fmt::Write>(&self, f: &mut fmt::Formatter<W>) -> fmt::Result {
        f.write_str(match self {
            AnswerFault::NotAsked => "not asked",
            AnswerFault::BadRows => "bad rows",
            AnswerFault::Memory => "memory",
        })
    }
}

impl Error for AnswerFault {}
