//! Why a plan is not carried out.

use repair_laws::Pair;
use std::alloc::AllocError;
use std::error::Error;
use std::fmt;

/// Why a plan is not carried out, with the first of its pairs that stops it.
#[derive(Clone, Copy, Debug, PartialEq, Eq)]
pub enum RepairFault {
    /// The first program reads a range that is exposed to the second.
    RangeRead(Pair),
    /// The first program reads a row under a key of unknown value that is exposed to the second.
    UnknownKey(Pair),
    /// A read of the first program that is exposed to the second, or the access to which it is,
    /// stands in the body of an `each`.
    BodyRead(Pair),
    /// The repaired set would break a limit.
    TooMany(Pair),
    Memory,
}

impl fmt::Display for RepairFault {
    ghost use Rattle.std.specs.Prelude.{Some};
    ghost use Rattle.si_repair.specs.Texts.{repair_fault_text};

    ghost output = { λ fault. Some (repair_fault_text fault) };

    fn fmt<W: fmt::Write>(&self, f: &mut fmt::Formatter<W>) -> fmt::Result {
        match self {
            RepairFault::RangeRead(pair) => write!(f, "U1 {} {}", pair.from, pair.to),
            RepairFault::UnknownKey(pair) => write!(f, "U2 {} {}", pair.from, pair.to),
            RepairFault::BodyRead(pair) => write!(f, "U5 {} {}", pair.from, pair.to),
            RepairFault::TooMany(pair) => write!(f, "U3 {} {}", pair.from, pair.to),
            RepairFault::Memory => f.write_str("memory"),
        }
    }
}

impl Error for RepairFault {}

impl From<AllocError> for RepairFault {
    ghost use Rattle.std.specs.Prelude.{◌≡◌};
    ghost use Rattle.si_repair.specs.declared.repairs.fault.RepairFault.TheVariants.{Memory};

    ghost from_gives = { λ _ e. e ≡ Memory };

    fn from(_error: AllocError) -> Self {
        RepairFault::Memory
    }
}
