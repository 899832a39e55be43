//! Settings, trigger states and readings.

use crate::scan_list::ScanList;
use sv_errors::Source;

/// A setting and its value. [`Setting::Monitor`] and the settings of the limits can be changed at
/// any time, the other settings only while no measurement is under way.
#[derive(Clone, Copy)]
pub enum Setting {
    /// The channels of a scan, in the order in which they are read; at least one. The default is
    /// channel 1.
    List(ScanList),
    /// The monitored channel, whose input is compared with the limits. The default is 1.
    Monitor(u8),
    /// The voltage to measure, in microvolts, 0 to 100 V. The range becomes the smallest of 1, 10
    /// and 100 V that is at least this voltage. The default is 10 V.
    Range(i64),
    /// The upper limit, in microvolts, up to 1,000 V in magnitude. The default is 1,000 V.
    Upper(i64),
    /// The lower limit, in microvolts, up to 1,000 V in magnitude. The default is -1,000 V.
    Lower(i64),
    /// Whether the limits are on. By default they are off.
    Limits(bool),
    /// Where triggers come from. The default is [`Source::Immediate`].
    Source(Source),
    /// How many scans a measurement has, one for each trigger: 1 to
    /// [`MOST_SCANS`](sv_errors::MOST_SCANS). The default is 1.
    Count(u8),
}

/// The state of the trigger system (SCPI-1999, volume 2, chapter 24).
#[derive(Clone, Copy, Debug)]
pub enum State {
    /// No measurement is under way.
    Idle,
    /// A scan waits for a trigger.
    Waiting,
    /// A scan is under way.
    Scanning,
}

/// The reading of one sample.
#[derive(Clone, Copy, Debug)]
pub enum Reading {
    /// A voltage within the range, in microvolts.
    Value(i64),
    /// A voltage above the range.
    Over,
    /// A voltage below the negative of the range.
    Under,
}
