//! The names of the status registers (SCPI-1999, chapter 20, STATus).

/// A status register.
#[derive(Clone, Copy, Debug)]
pub enum RegisterName {
    /// What the instrument is doing, such as measuring or waiting for a trigger:
    /// `STATus:OPERation`. Its summary is bit 7 of the status byte.
    Operation,
    /// What makes readings doubtful, such as an overload or a voltage outside the limits:
    /// `STATus:QUEStionable`. Its summary is bit 3 of the status byte.
    Questionable,
    /// Which limit is violated, by a reading or by the monitored input:
    /// `STATus:QUEStionable:LIMit`. Its summary is bit 9 of the condition of
    /// [`RegisterName::Questionable`].
    Limit,
}
