//! The changes that the layers apply, except those of message exchange.

use sv_errors::Code;
use sv_scan::ScanAct;
use sv_status::RegisterName;

/// What a held unit will answer when the measurement ends.
#[derive(Clone, Copy)]
pub enum Awaited {
    /// No answer, for `*WAI` (IEEE 488.2, 12.5.1).
    Nothing,
    /// The answer `1`, which `*OPC?` returns (IEEE 488.2, 12.5.3).
    One,
    /// The readings, which `READ?` and `MEASure?` return (SCPI-1999, volume 2, chapter 3).
    Readings,
}

/// A change that a unit makes to one status register (SCPI-1999, chapter 20).
#[derive(Clone, Copy)]
pub enum RegisterChange {
    /// The events are read, which clears them.
    ReadEvents,
    /// The enable is set.
    Enable(u16),
    /// The positive transition filter is set.
    SetRise(u16),
    /// The negative transition filter is set.
    SetFall(u16),
}

/// A change that a unit makes to the standard events, to the service request enable, or to a status
/// register.
#[derive(Clone, Copy)]
pub enum StatusChange {
    /// The standard events are read, which clears them.
    ReadStandard,
    /// The enable of the standard events is set.
    EnableStandard(u8),
    /// The service request enable is set.
    EnableService(u8),
    /// The register with this name is changed.
    Register(RegisterName, RegisterChange),
}

/// A change of the instrument, except changes of program text and of the response.
#[derive(Drop)]
pub enum Change {
    /// An act of the scanner.
    Scan(ScanAct),
    /// The unit that is due has to wait for the end of the measurement. The value is what the unit
    /// will answer then.
    Hold(Awaited),
    /// An error is reported.
    Report(Code),
    /// The oldest entry of the error queue is removed.
    TakeEntry,
    /// `*CLS`: events and error queue are cleared, and a pending `*OPC` is cancelled.
    ClearStatus,
    /// `STATus:PRESet`: enables and filters of all registers are preset.
    Preset,
    /// `*OPC`: the operation complete event is to be set when the measurement ends.
    AskComplete,
    /// The standard events, the service request enable or a status register is changed.
    Status(StatusChange),
}
