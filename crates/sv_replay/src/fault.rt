//! Why a replay stopped.

ghost use Rattle.std.specs.Prelude.{◌≡◌};

use crate::input::InputFault;
use std::alloc::AllocError;
use sv_server::ReplayFault;
use thiserror::Error;

/// Why a replay stopped. What was printed before the fault stays printed.
#[derive(Clone, Copy, Debug, Error)]
pub enum RunFault {
    /// The line with this number, counted from 1, has more than 65,536 bytes, or isn't a line of a
    /// replay.
    #[error("bad line {0}")]
    BadLine(u64),
    /// The input failed, or had been read 4,294,967,294 times, which is as often as allowed.
    #[error("input")]
    Input,
    /// The output failed.
    #[error("output")]
    Output,
    /// Memory was refused.
    #[error("memory")]
    Memory,
}

impl From<ReplayFault> for RunFault {
    ghost use Rattle.sv_replay.specs.Run.{run_fault};

    ghost from_gives = { λ replayed fault. fault ≡ run_fault replayed };

    fn from(fault: ReplayFault) -> RunFault {
        match fault {
            ReplayFault::NoMemory => RunFault::Memory,
            ReplayFault::Write => RunFault::Output,
        }
    }
}

impl From<InputFault> for RunFault {
    ghost use Rattle.sv_replay.specs.declared.fault.RunFault.TheVariants.{Input};

    ghost from_gives = { λ failed fault. fault ≡ Input };

    fn from(_: InputFault) -> RunFault {
        RunFault::Input
    }
}

impl From<AllocError> for RunFault {
    ghost use Rattle.sv_replay.specs.declared.fault.RunFault.TheVariants.{Memory};

    ghost from_gives = { λ refused fault. fault ≡ Memory };

    fn from(_: AllocError) -> RunFault {
        RunFault::Memory
    }
}
