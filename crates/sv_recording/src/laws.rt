//! A law of recorders. It is the contract of a function that does nothing.

ghost use Rattle.sv_recording.specs.Recorded.{TraceIsKept};

use crate::recorder::Recorder;
use sv_serve::Wire;

/// If there was memory for every call, the recorded calls are exactly the trace that the laws of a
/// driver (`sv_driver_laws`) are about: the calls of the wire's methods, with their answers.
pub fn trace_is_kept<W: Wire + Drop>()
    ensures { TraceIsKept W.hears ⟦<Recorder<W> as Wire>⟧.hears }
{}
