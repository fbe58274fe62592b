//! Why a set is not analysed.

use conflict_pairs::PairFault;
use std::alloc::AllocError;
use std::error::Error;
use std::fmt;

/// Why a set is not analysed.
#[derive(Clone, Copy, Debug, PartialEq, Eq)]
pub enum AnalyseFault {
    /// The set asks more than 1,000,000 questions.
    TooLarge,
    Memory,
}

impl fmt::Display for AnalyseFault {
    ghost use Rattle.std.specs.Prelude.{Some};
    ghost use Rattle.si_repair.specs.Texts.{analyse_fault_text};

    ghost output = { λ fault. Some (analyse_fault_text fault) };

    fn fmt<W: fmt::Write>(&self, f: &mut fmt::Formatter<W>) -> fmt::Result {
        match self {
            AnalyseFault::TooLarge => f.write_str("Q1"),
            AnalyseFault::Memory => f.write_str("memory"),
        }
    }
}

impl Error for AnalyseFault {}

impl From<AllocError> for AnalyseFault {
    ghost use Rattle.std.specs.Prelude.{◌≡◌};
    ghost use Rattle.si_repair.specs.declared.fault.AnalyseFault.TheVariants.{Memory};

    ghost from_gives = { λ _ e. e ≡ Memory };

    fn from(_error: AllocError) -> Self {
        AnalyseFault::Memory
    }
}

impl From<PairFault> for AnalyseFault {
    ghost use Rattle.std.specs.Prelude.{◌≡◌};
    ghost use Rattle.si_repair.specs.Findings.{fault_of};

    ghost from_gives = { λ fault e. e ≡ fault_of fault };

    fn from(fault: PairFault) -> Self {
        match fault {
            PairFault::TooLarge => AnalyseFault::TooLarge,
            PairFault::Memory => AnalyseFault::Memory,
        }
    }
}
