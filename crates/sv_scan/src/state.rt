//! The state of the trigger system.

ghost use Rattle.std.specs.Prelude.{◌≡◌};
ghost use Rattle.sv_scan.specs.Counted.{is_idle as idles, is_waiting as waits, is_scanning as scans, same_source};

use crate::setting::State;
use sv_errors::Source;

impl State {
    /// Whether no measurement is under way.
    pub fn is_idle(self) -> bool
        ensures { result ≡ idles self }
    {
        matches!(self, State::Idle)
    }

    /// Whether the next scan waits for its trigger.
    pub fn is_waiting(self) -> bool
        ensures { result ≡ waits self }
    {
        matches!(self, State::Waiting)
    }

    /// Whether a scan was triggered and isn't complete.
    pub fn is_scanning(self) -> bool
        ensures { result ≡ scans self }
    {
        matches!(self, State::Scanning)
    }
}

/// Whether two sources of triggers are the same.
pub(crate) fn is_same(first: Source, second: Source) -> bool
    ensures { result ≡ same_source first second }
{
    first == second
}
