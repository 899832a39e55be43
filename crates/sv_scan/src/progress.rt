//! How far a measurement is, and what was read last.

ghost use Rattle.std.specs.Prelude.{◌≡◌, List};
ghost use Rattle.sv_scan.specs.declared.acts.ScanAct.{ScanAct};
ghost use Rattle.sv_scan.specs.Counted.{effective};
ghost use Rattle.sv_scan.specs.Stands.{StandsFor};
ghost use Rattle.sv_scan.specs.Progress.{progress, newest_reading};

use crate::scanner::Scanner;
use crate::setting::Reading;
use std::alloc::Allocator;

/// How far the measurement under way is.
#[derive(Clone, Copy, Debug, PartialEq, Eq)]
pub struct Progress {
    /// How many of its scans were triggered.
    pub scan: u8,
    /// How many scans it has.
    pub scans: u8,
    /// How many channels of the scan under way were read; 0 while it waits for its trigger.
    pub place: u8,
    /// How many channels each scan reads.
    pub places: u8,
}

/// A reading, and the channel that was read.
#[derive(Clone, Copy, Debug)]
pub struct Taken {
    /// The channel.
    pub channel: u8,
    /// The reading.
    pub reading: Reading,
}

impl<A: Allocator> Scanner<A> {
    /// How far the measurement under way is; `None` if no measurement is under way.
    pub fn progress(&self) -> Option<Progress>
        ensures { (acts : List ScanAct) → StandsFor self.now acts
            → result ≡ progress (effective acts) }
    {
        let Some(run) = &self.run else {
            return None;
        };
        let samples = self.readings.len();
        if run.is_complete(samples) {
            return None;
        }
        let places = run.list.channels().len();
        Some(Progress {
            scan: run.triggers,
            scans: run.scans,
            place: (samples % places) as u8,
            places: places as u8,
        })
    }

    /// The newest reading of the measurement, with its channel; `None` if there is no reading.
    pub fn newest_reading(&self) -> Option<Taken>
        ensures { (acts : List ScanAct) → StandsFor self.now acts
            → result ≡ newest_reading (effective acts) }
    {
        let Some(run) = &self.run else {
            return None;
        };
        let reading = self.last_reading()?;
        Some(Taken {
            channel: run.channel(self.readings.len().saturating_sub(1)),
            reading,
        })
    }
}
