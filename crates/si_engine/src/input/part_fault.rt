//! Why a part of the input is refused.

use crate::input::line_fault::LineFault;
use crate::input::source::InputFault;
use std::alloc::AllocError;
use std::error::Error;
use std::fmt;

/// Why a part of the input is not read, or a script not run.
#[derive(Clone, Copy, Debug, PartialEq, Eq)]
pub enum PartFault {
    Input(InputFault),
    Line(LineFault),
    /// The sink failed, so this is never printed.
    WriteFault,
}

impl fmt::Display for PartFault {
    ghost use Rattle.std.specs.Prelude.{Some};
    ghost use Rattle.si_engine.specs.Texts.{part_fault_text};

    ghost output = { λ fault. Some (part_fault_text fault) };

    fn fmt<W: fmt::Write>(&self, f: &mut fmt::Formatter<W>) -> fmt::Result {
        match self {
            PartFault::Input(fault) => write!(f, "{fault}"),
            PartFault::Line(fault) => write!(f, "{fault}"),
            PartFault::WriteFault => f.write_str("I5"),
        }
    }
}

impl Error for PartFault {}

impl From<InputFault> for PartFault {
    ghost use Rattle.std.specs.Prelude.{◌≡◌};
    ghost use Rattle.si_engine.specs.declared.input.part_fault.PartFault.TheVariants.{Input};

    ghost from_gives = { λ fault e. e ≡ Input fault };

    fn from(fault: InputFault) -> Self {
        PartFault::Input(fault)
    }
}

impl From<LineFault> for PartFault {
    ghost use Rattle.std.specs.Prelude.{◌≡◌};
    ghost use Rattle.si_engine.specs.declared.input.part_fault.PartFault.TheVariants.{Line};

    ghost from_gives = { λ fault e. e ≡ Line fault };

    fn from(fault: LineFault) -> Self {
        PartFault::Line(fault)
    }
}

impl From<AllocError> for PartFault {
    ghost use Rattle.std.specs.Prelude.{◌≡◌};
    ghost use Rattle.si_engine.specs.declared.input.part_fault.PartFault.TheVariants.{Input};
    ghost use Rattle.si_engine.specs.declared.input.source.InputFault.TheVariants.{Memory};

    ghost from_gives = { λ _ e. e ≡ Input Memory };

    fn from(_: AllocError) -> Self {
        PartFault::Input(InputFault::Memory)
    }
}
