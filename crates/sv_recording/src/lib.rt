//! Records a run of the server's driver: either which methods of the wire it called, or which
//! events its server applied.
//!
//! The laws of `sv_driver_laws` are about a trace: the calls of the methods of a driver's wire,
//! with their answers. If a [`Recorder`] is the wire, the trace is the list of calls that it
//! recorded: it passes each call on to a second wire.
//!
//! The laws are also about a history: the events that the server applied. If a [`Tape`] is the
//! driver's journal, it writes the script of this history, which `scanvolt replay` replays.
#![tactic(auto)]

mod call;
pub mod laws;
mod recorder;
mod tape;

pub use call::Call;
pub use recorder::Recorder;
pub use tape::Tape;
