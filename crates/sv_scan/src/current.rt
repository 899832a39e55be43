//! The current settings.

ghost use Rattle.std.specs.Prelude.{◌≡◌, ◌≤◌, true, List, unsigned_abs};
ghost use Rattle.sv_errors.specs.Limits.{is_channel, is_channel_list, most_scans};
ghost use Rattle.sv_scan.specs.declared.acts.ScanAct.{ScanAct};
ghost use Rattle.sv_scan.specs.Setting.{scan_list as scan_list_of, monitor as monitor_of, range as range_of, upper as upper_of, lower as lower_of, limits as limits_of, source as source_of, count as count_of};
ghost use Rattle.sv_scan.specs.Counted.{effective};
ghost use Rattle.sv_scan.specs.Stands.{StandsFor};

use crate::scanner::Scanner;
use std::alloc::Allocator;
use sv_errors::Source;

impl<A: Allocator> Scanner<A> {
    /// The channels of a scan, in the order in which they are read; at least one.
    pub fn list(&self) -> &[u8]
        ensures answer { (acts : List ScanAct) → StandsFor self.now acts
            → result.now ≡ scan_list_of (effective acts) }
        ensures bounded { is_channel_list result.now ≡ true }
    {
        self.settings.list.channels()
    }

    /// The monitored channel, whose input is compared with the limits.
    pub fn monitor(&self) -> u8
        ensures answer { (acts : List ScanAct) → StandsFor self.now acts
            → result ≡ monitor_of (effective acts) }
        ensures bounded { is_channel result ≡ true }
    {
        self.settings.monitor
    }

    /// The range, in microvolts: 1, 10 or 100 V.
    pub fn range(&self) -> i64
        ensures answer { (acts : List ScanAct) → StandsFor self.now acts
            → result ≡ range_of (effective acts) }
        ensures bounded { unsigned_abs result ≤ 100000000 }
    {
        self.settings.range
    }

    /// The upper limit, in microvolts, up to 1,000 V in magnitude.
    pub fn upper(&self) -> i64
        ensures answer { (acts : List ScanAct) → StandsFor self.now acts
            → result ≡ upper_of (effective acts) }
        ensures bounded { unsigned_abs result ≤ 1000000000 }
    {
        self.settings.upper
    }

    /// The lower limit, in microvolts, up to 1,000 V in magnitude.
    pub fn lower(&self) -> i64
        ensures answer { (acts : List ScanAct) → StandsFor self.now acts
            → result ≡ lower_of (effective acts) }
        ensures bounded { unsigned_abs result ≤ 1000000000 }
    {
        self.settings.lower
    }

    /// Whether the limits are on.
    pub fn limits(&self) -> bool
        ensures { (acts : List ScanAct) → StandsFor self.now acts
            → result ≡ limits_of (effective acts) }
    {
        self.settings.limits
    }

    /// Where triggers come from.
    pub fn source(&self) -> Source
        ensures { (acts : List ScanAct) → StandsFor self.now acts
            → result ≡ source_of (effective acts) }
    {
        self.settings.source
    }

    /// How many scans a measurement has: 1 to [`MOST_SCANS`](sv_errors::MOST_SCANS).
    pub fn count(&self) -> u8
        ensures answer { (acts : List ScanAct) → StandsFor self.now acts
            → result ≡ count_of (effective acts) }
        ensures bounded { (1 ≤ result) × (result ≤ most_scans) }
    {
        self.settings.count
    }
}
