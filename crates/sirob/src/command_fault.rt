//! What keeps a command from its work, and the line that says so.
ghost use Rattle.std.specs.Prelude.{◌≡◌, IfOk, string_bytes};
ghost use Rattle.sirob.specs.FaultLines.{fault_line, is_memory};

use crate::parts::SplitFault;
use history_book::AuditFault;
use prog_check::CheckFault;
use prog_text::TextFault;
use robust_cert::{CertFault, JsonFault};
use si_engine::{InputFault, LineFault, PartFault};
use si_repair::{AnalyseFault, RepairFault};
use si_workers::{WorkFault, WorkerFault};
use std::alloc::{AllocError, Global};
use std::fmt;

/// A fault, by the layer that finds it.
#[derive(Clone, Copy, Debug, PartialEq, Eq)]
pub enum CommandFault {
    Input(InputFault),
    Split(SplitFault),
    Text(TextFault),
    Check(CheckFault),
    Analysis(AnalyseFault),
    Repair(RepairFault),
    Json(JsonFault),
    Certificate(CertFault),
    Part(PartFault),
    Audit(AuditFault),
    Work(WorkerFault),
}

impl fmt::Display for CommandFault {
    ghost use Rattle.std.specs.Prelude.{Some};
    ghost use Rattle.sirob.specs.FaultLines.{fault_text};

    ghost output = { λ fault. Some (fault_text fault) };

    fn fmt<W: fmt::Write>(&self, f: &mut fmt::Formatter<W>) -> fmt::Result {
        match self {
            CommandFault::Input(fault) => write!(f, "{fault}"),
            CommandFault::Split(fault) => write!(f, "{fault}"),
            CommandFault::Text(fault) => write!(f, "{fault}"),
            CommandFault::Check(fault) => write!(f, "{fault}"),
            CommandFault::Analysis(fault) => write!(f, "{fault}"),
            CommandFault::Repair(fault) => write!(f, "{fault}"),
            CommandFault::Json(fault) => write!(f, "{fault}"),
            CommandFault::Certificate(fault) => write!(f, "{fault}"),
            CommandFault::Part(fault) => write!(f, "{fault}"),
            CommandFault::Audit(fault) => write!(f, "{fault}"),
            CommandFault::Work(fault) => write!(f, "{fault}"),
        }
    }
}

/// The line that a fault is, with its line feed.
pub fn fault_line(alloc: Global, fault: CommandFault) -> Result<String, AllocError>
    ensures { IfOk result (λ line. string_bytes line ≡ fault_line fault) }
{
    format!(in alloc; "fault {fault}\n")
}

impl From<InputFault> for CommandFault {
    ghost use Rattle.std.specs.Prelude.{◌≡◌};
    ghost use Rattle.sirob.specs.declared.command_fault.CommandFault.TheVariants.{Input};

    ghost from_gives = { λ fault e. e ≡ Input fault };

    fn from(fault: InputFault) -> Self {
        CommandFault::Input(fault)
    }
}

impl From<SplitFault> for CommandFault {
    ghost use Rattle.std.specs.Prelude.{◌≡◌};
    ghost use Rattle.sirob.specs.declared.command_fault.CommandFault.TheVariants.{Split};

    ghost from_gives = { λ fault e. e ≡ Split fault };

    fn from(fault: SplitFault) -> Self {
        CommandFault::Split(fault)
    }
}

impl From<TextFault> for CommandFault {
    ghost use Rattle.std.specs.Prelude.{◌≡◌};
    ghost use Rattle.sirob.specs.declared.command_fault.CommandFault.TheVariants.{Text};

    ghost from_gives = { λ fault e. e ≡ Text fault };

    fn from(fault: TextFault) -> Self {
        CommandFault::Text(fault)
    }
}

impl From<CheckFault> for CommandFault {
    ghost use Rattle.std.specs.Prelude.{◌≡◌};
    ghost use Rattle.sirob.specs.declared.command_fault.CommandFault.TheVariants.{Check};

    ghost from_gives = { λ fault e. e ≡ Check fault };

    fn from(fault: CheckFault) -> Self {
        CommandFault::Check(fault)
    }
}

impl From<AnalyseFault> for CommandFault {
    ghost use Rattle.std.specs.Prelude.{◌≡◌};
    ghost use Rattle.sirob.specs.declared.command_fault.CommandFault.TheVariants.{Analysis};

    ghost from_gives = { λ fault e. e ≡ Analysis fault };

    fn from(fault: AnalyseFault) -> Self {
        CommandFault::Analysis(fault)
    }
}

impl From<RepairFault> for CommandFault {
    ghost use Rattle.std.specs.Prelude.{◌≡◌};
    ghost use Rattle.sirob.specs.declared.command_fault.CommandFault.TheVariants.{Repair};

    ghost from_gives = { λ fault e. e ≡ Repair fault };

    fn from(fault: RepairFault) -> Self {
        CommandFault::Repair(fault)
    }
}

impl From<JsonFault> for CommandFault {
    ghost use Rattle.std.specs.Prelude.{◌≡◌};
    ghost use Rattle.sirob.specs.declared.command_fault.CommandFault.TheVariants.{Json};

    ghost from_gives = { λ fault e. e ≡ Json fault };

    fn from(fault: JsonFault) -> Self {
        CommandFault::Json(fault)
    }
}

impl From<PartFault> for CommandFault {
    ghost use Rattle.std.specs.Prelude.{◌≡◌};
    ghost use Rattle.sirob.specs.declared.command_fault.CommandFault.TheVariants.{Part};

    ghost from_gives = { λ fault e. e ≡ Part fault };

    fn from(fault: PartFault) -> Self {
        CommandFault::Part(fault)
    }
}

impl From<LineFault> for CommandFault {
    ghost use Rattle.std.specs.Prelude.{◌≡◌};
    ghost use Rattle.sirob.specs.declared.command_fault.CommandFault.TheVariants.{Part};
    ghost use Rattle.si_engine.specs.declared.input.part_fault.PartFault.TheVariants.{Line};

    ghost from_gives = { λ fault e. e ≡ Part (Line fault) };

    fn from(fault: LineFault) -> Self {
        CommandFault::Part(PartFault::Line(fault))
    }
}

impl From<AuditFault> for CommandFault {
    ghost use Rattle.std.specs.Prelude.{◌≡◌};
    ghost use Rattle.sirob.specs.declared.command_fault.CommandFault.TheVariants.{Audit};

    ghost from_gives = { λ fault e. e ≡ Audit fault };

    fn from(fault: AuditFault) -> Self {
        CommandFault::Audit(fault)
    }
}

impl From<WorkFault<'_>> for CommandFault {
    ghost use Rattle.std.specs.Prelude.{◌≡◌};
    ghost use Rattle.si_workers.specs.Texts.{worker_fault_of};
    ghost use Rattle.sirob.specs.declared.command_fault.CommandFault.TheVariants.{Work};

    ghost from_gives = { λ fault e. e ≡ Work (worker_fault_of fault) };

    fn from(fault: WorkFault<'_>) -> Self {
        CommandFault::Work(WorkerFault::of(&fault))
    }
}

impl From<AllocError> for CommandFault {
    ghost use Rattle.std.specs.Prelude.{◌≡◌};
    ghost use Rattle.sirob.specs.declared.command_fault.CommandFault.TheVariants.{Input};
    ghost use Rattle.si_engine.specs.declared.input.source.InputFault.TheVariants.{Memory};

    ghost from_gives = { λ _ e. e ≡ Input Memory };

    fn from(_: AllocError) -> Self {
        CommandFault::Input(InputFault::Memory)
    }
}

impl CommandFault {
    /// Whether it is want of memory, and no fault of the input.
    pub fn is_memory(self) -> bool
        ensures { result ≡ is_memory self }
    {
        matches!(
            self,
            CommandFault::Input(InputFault::Memory)
                | CommandFault::Text(TextFault::Memory)
                | CommandFault::Check(CheckFault::Memory)
                | CommandFault::Analysis(AnalyseFault::Memory)
                | CommandFault::Repair(RepairFault::Memory)
                | CommandFault::Json(JsonFault::Memory)
                | CommandFault::Certificate(CertFault::Memory)
                | CommandFault::Part(PartFault::Input(InputFault::Memory))
                | CommandFault::Part(PartFault::Line(LineFault::Memory))
                | CommandFault::Audit(AuditFault::Memory)
                | CommandFault::Work(WorkerFault::Memory)
        )
    }
}
