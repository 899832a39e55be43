//! The commands that headers name.

use sv_status::RegisterName;

/// The command that a header names. A header with a question mark names another command than the
/// same header without it.
#[derive(Clone, Copy, Debug)]
pub enum CommandId {
    /// A command without a parameter, or a query whose answer might have to wait.
    Do(Action),
    /// A query whose answer never has to wait.
    Ask(Question),
    /// A command that sets this setting to the value of its parameter.
    Set(SettingName),
    /// `CONFigure:VOLTage[:DC]`: configure a measurement, with a channel list if one is given.
    Configure,
    /// `MEASure:VOLTage[:DC]?`: configure as [`CommandId::Configure`] does, measure, and return the
    /// readings.
    Measure,
}

/// What is done by a command without a parameter, or by a query whose answer might have to wait.
#[derive(Clone, Copy, Debug)]
pub enum Action {
    /// `*CLS`: clear events and the error queue (IEEE 488.2, 10.3).
    ClearStatus,
    /// `*RST`: abort, and set every setting to its default (IEEE 488.2, 10.32).
    Reset,
    /// `*OPC`: set the operation complete bit when the measurement ends (IEEE 488.2, 10.18).
    TellComplete,
    /// `*WAI`: wait for the end of the measurement (IEEE 488.2, 10.39).
    Wait,
    /// `*OPC?`: wait for the end of the measurement, and answer `1` (IEEE 488.2, 10.19).
    WaitAndTell,
    /// `*TRG`: trigger the scanner, as device_trigger does (IEEE 488.2, 10.37).
    Trigger,
    /// `STATus:PRESet`: preset the registers' filters and enables.
    Preset,
    /// `INITiate[:IMMediate]`: begin a measurement.
    Initiate,
    /// `ABORt`: end the measurement.
    Abort,
    /// `READ?`: abort, begin a measurement, and return its readings.
    Read,
}

/// What is returned by a query whose answer never has to wait.
#[derive(Clone, Copy, Debug)]
pub enum Question {
    /// `*IDN?`: the identification of the instrument.
    Identification,
    /// `*TST?`: the result of the self-test.
    SelfTest,
    /// `SYSTem:VERSion?`: the version of SCPI.
    Version,
    /// `*ESR?`: the standard events, which the query clears.
    StandardEvents,
    /// `*STB?`: the status byte, with the master summary in bit 6.
    StatusByte,
    /// `SYSTem:ERRor[:NEXT]?`: the oldest entry of the error queue, which the query removes.
    Error,
    /// `SYSTem:ERRor:COUNt?`: how many entries the error queue has.
    ErrorCount,
    /// `STATus:..[:EVENt]?`: the event bits of a register, which the query clears.
    Events(RegisterName),
    /// `STATus:..:CONDition?`: the condition of a register.
    Condition(RegisterName),
    /// `FETCh?`: the readings of the last measurement.
    Readings,
    /// The value of this setting, which the query of the setting returns.
    Value(SettingName),
}

/// A value that a command sets and a query returns.
#[derive(Clone, Copy, Debug)]
pub enum SettingName {
    /// `*ESE`: the enable of the standard events.
    StandardEnable,
    /// `*SRE`: the service request enable.
    ServiceEnable,
    /// `STATus:..:ENABle`: the enable of a register.
    Enable(RegisterName),
    /// `STATus:..:PTRansition`: the positive transition filter of a register.
    Rise(RegisterName),
    /// `STATus:..:NTRansition`: the negative transition filter of a register.
    Fall(RegisterName),
    /// `ROUTe:SCAN`: the channels of a scan.
    ScanList,
    /// `ROUTe:MONitor`: the monitored channel.
    Monitor,
    /// `[SENSe:]VOLTage[:DC]:RANGe[:UPPer]`: the range.
    Range,
    /// `CALCulate:LIMit:UPPer`: the upper limit.
    UpperLimit,
    /// `CALCulate:LIMit:LOWer`: the lower limit.
    LowerLimit,
    /// `CALCulate:LIMit:STATe`: whether the limits are on.
    Limits,
    /// `TRIGger:SOURce`: the source of triggers.
    Source,
    /// `TRIGger:COUNt`: how many scans a measurement has.
    Count,
}
