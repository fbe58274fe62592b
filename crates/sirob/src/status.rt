//! How a run ends.
ghost use Rattle.std.specs.Prelude.{◌≡◌};
ghost use Rattle.std.specs.Process.{exit_status};
ghost use Rattle.sirob.specs.Status.{status_number, status_of};

use si_engine::Serializability;
use std::process::ExitCode;

/// How a run ended, as the program's exit status tells it.
#[derive(Clone, Copy, Debug, PartialEq, Eq)]
pub enum Status {
    Done,
    /// The set is refused; or no serial order gives the same, since the commits depend on one
    /// another in a cycle.
    Unserializable,
    /// The words or the input are faulty, or a read or a write failed.
    Faulty,
    Memory,
}

impl Status {
    /// The status of a history that leaves this finding.
    pub fn of(finding: Serializability) -> Self
        ensures { result ≡ status_of finding }
    {
        match finding {
            Serializability::Order => Status::Done,
            Serializability::Cycle => Status::Unserializable,
        }
    }

    pub fn number(self) -> u8
        ensures { result ≡ status_number self }
    {
        match self {
            Status::Done => 0,
            Status::Unserializable => 1,
            Status::Faulty => 2,
            Status::Memory => 3,
        }
    }

    /// What the process ends with.
    pub fn exit_code(self) -> ExitCode
        ensures { exit_status result ≡ status_number self }
    {
        ExitCode::from(self.number())
    }
}
