//! The acts of the scanner.

use crate::setting::Setting;
use sv_errors::{Code, Source};

/// An act of the scanner.
#[derive(Clone, Copy)]
pub enum ScanAct {
    /// The input of a channel becomes this voltage, in microvolts.
    Input(u8, i64),
    /// A setting is changed.
    Configure(Setting),
    /// A measurement is initiated.
    Init,
    /// The measurement is aborted.
    Abort,
    /// The measurement is aborted, and every setting takes its default.
    Reset,
    /// A trigger comes from this source.
    Trigger(Source),
    /// The next channel of the scan list is read, if a scan is under way.
    Sample,
}

/// The answer to an act of the scanner.
#[derive(Clone, Copy, Debug)]
pub enum ScanAnswer {
    /// The act has no answer.
    Done,
    /// The act was done, or refused with this error.
    Answered(Result<(), Code>),
    /// The answer to a sample: whether a channel was read.
    Sampled(bool),
}
