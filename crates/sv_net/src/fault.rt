//! Why the program stops, and its exit status.

ghost use Rattle.std.specs.Prelude.{◌≡◌};

use std::alloc::AllocError;
use sv_replay::{RunFault, ScenarioFault};
use thiserror::Error;

/// Why the program stopped.
#[derive(Clone, Copy, Debug, Error)]
pub enum ProgramFault {
    /// The program doesn't accept the words of the command line.
    #[error("bad words")]
    BadWords,
    /// A script or a scenario can't be run; input or output failed; or memory was refused.
    #[error("{0}")]
    Run(#[from] RunFault),
    /// A port can't be listened on, a wait for the sockets failed, or the system's clock can't be
    /// read.
    #[error("socket")]
    Socket,
}

impl ProgramFault {
    ghost use Rattle.sv_net.specs.Program.{status};

    /// Returns the exit status for the fault: 2 for bad words of the command line and bad lines of
    /// a script or scenario; 3 for faults of input, output, memory and sockets.
    pub fn status(self) -> u8
        ensures { result ≡ status self }
    {
        match self {
            ProgramFault::BadWords | ProgramFault::Run(RunFault::BadLine(_)) => 2,
            ProgramFault::Run(RunFault::Input | RunFault::Output | RunFault::Memory)
            | ProgramFault::Socket => 3,
        }
    }
}

impl From<ScenarioFault> for ProgramFault {
    ghost use Rattle.sv_net.specs.Program.{scenario_fault};

    ghost from_gives = { λ scenario fault. fault ≡ scenario_fault scenario };

    fn from(fault: ScenarioFault) -> ProgramFault {
        match fault {
            ScenarioFault::BadLine(number) => ProgramFault::Run(RunFault::BadLine(number)),
            ScenarioFault::Memory => ProgramFault::Run(RunFault::Memory),
        }
    }
}

impl From<AllocError> for ProgramFault {
    ghost use Rattle.std.specs.Prelude.{◌≡◌};
    ghost use Rattle.sv_replay.specs.declared.fault.RunFault.TheVariants.{Memory};
    ghost use Rattle.sv_net.specs.declared.fault.ProgramFault.TheVariants.{Run};

    ghost from_gives = { λ refused fault. fault ≡ Run Memory };

    fn from(_: AllocError) -> ProgramFault {
        ProgramFault::Run(RunFault::Memory)
    }
}
