//! All settings together.

use crate::possible::least_range;
use crate::scan_list::ScanList;
use crate::setting::Setting;
use sv_errors::{MOST_MICROVOLTS, Source};

/// The current settings of the scanner.
#[derive(Drop)]
pub(crate) struct Settings {
    /// The channels that a scan reads.
    pub(crate) list: ScanList,
    /// The channel whose live input is compared with the limits.
    pub(crate) monitor: u8,
    /// The range: 1, 10 or 100 V, in microvolts.
    pub(crate) range: i64,
    /// The upper limit, in microvolts.
    pub(crate) upper: i64,
    /// The lower limit, in microvolts.
    pub(crate) lower: i64,
    /// Whether the limits are on.
    pub(crate) limits: bool,
    /// Where triggers come from.
    pub(crate) source: Source,
    /// How many scans a measurement has.
    pub(crate) count: u8,
}

impl Settings {
    ghost use Rattle.std.specs.Prelude.{[]};
    ghost use Rattle.sv_scan.specs.Together.{AreOf, IsSet};

    /// All settings at their defaults.
    pub(crate) fn new() -> Settings
        ensures { AreOf result [] }
    {
        Settings {
            list: ScanList::of(1),
            monitor: 1,
            range: 10_000_000,
            upper: i64::from(MOST_MICROVOLTS),
            lower: -i64::from(MOST_MICROVOLTS),
            limits: false,
            source: Source::Immediate,
            count: 1,
        }
    }

    /// Changes one setting.
    pub(crate) fn set(&mut self, setting: Setting)
        ensures { IsSet setting self.old self.new }
    {
        match setting {
            Setting::List(list) => self.list = list,
            Setting::Monitor(channel) => self.monitor = channel,
            Setting::Range(wanted) => self.range = least_range(wanted),
            Setting::Upper(limit) => self.upper = limit,
            Setting::Lower(limit) => self.lower = limit,
            Setting::Limits(on) => self.limits = on,
            Setting::Source(source) => self.source = source,
            Setting::Count(scans) => self.count = scans,
        }
    }
}
