//! A measurement after its initiation.

ghost use Rattle.std.specs.Prelude.{◌≡◌, ◌+◌, ◌*◌, ◌<◌, ◌==◌, length};
ghost use Rattle.sv_errors.specs.Limits.{most_scans};
ghost use Rattle.sv_scan.specs.Scan.{channel_at};

use crate::scan_list::ScanList;
use std::marker::Model;

/// A measurement: its scan list and count, as they were when it was initiated, and the number of
/// its triggers so far.
#[derive(Drop)]
pub(crate) struct Run {
    /// The channels that each scan reads.
    pub(crate) list: ScanList,
    /// How many scans the measurement has in all.
    pub(crate) scans: u8,
    /// How many scans were triggered.
    pub(crate) triggers: u8,
}

impl Model for Run {
    ghost use Rattle.sv_scan.specs.Stands.{Run as Measurement};

    ghost Value = { Measurement };

    ghost view = { λ r. record { channels = r.list; scans = r.scans; triggers = r.triggers } };
}

impl Run {
    /// Whether each channel of each scan has been read after this number of samples.
    pub(crate) fn is_complete(&self, samples: usize) -> bool
        ensures { result ≡ (samples == self.now.scans * length self.now.channels) }
    {
        samples == usize::from(self.scans) * self.list.channels().len()
    }

    /// The channel to read after this number of samples. After the last channel of the list, the
    /// first channel comes again.
    pub(crate) fn channel(&self, samples: usize) -> u8
        requires { 0 < length self.now.channels }
        ensures { result ≡ channel_at self.now.channels samples }
    {
        let channels = self.list.channels();
        channels[samples % channels.len()]
    }

    /// Counts one more trigger.
    pub(crate) fn trigger(&mut self)
        requires { self.old.triggers < most_scans }
        ensures { self.new ≡ record self.old { triggers = self.old.triggers + 1 } }
    {
        self.triggers += 1;
    }
}
