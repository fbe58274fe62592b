//! Why there is no table.

use std::alloc::AllocError;
use std::error::Error;
use std::fmt;

/// Why there is no table of questions.
#[derive(Clone, Copy, Debug, PartialEq, Eq)]
pub enum PairFault {
    /// There are more than 1,000,000 questions.
    TooLarge,
    Memory,
}

impl fmt::Display for PairFault {
    ghost use Rattle.std.specs.Prelude.{Some};
    ghost use Rattle.conflict_pairs.specs.Texts.{pair_fault_text};

    ghost output = { λ fault. Some (pair_fault_text fault) };

    fn fmt<W: fmt::Write>(&self, f: &mut fmt::Formatter<W>) -> fmt::Result {
        match self {
            PairFault::TooLarge => f.write_str("too large"),
            PairFault::Memory => f.write_str("memory"),
        }
    }
}

impl Error for PairFault {}

impl From<AllocError> for PairFault {
    ghost use Rattle.std.specs.Prelude.{◌≡◌};
    ghost use Rattle.conflict_pairs.specs.declared.fault.PairFault.TheVariants.{Memory};

    ghost from_gives = { λ _ e. e ≡ Memory };

    fn from(_error: AllocError) -> Self {
        PairFault::Memory
    }
}
