//! What a unit tells the instrument to do.

use sv_header::{Action, Question};
use sv_layers::StatusChange;
use sv_scan::{ScanList, Setting};

/// What a unit tells the instrument to do, with the values of its parameters. The mask for a
/// register can have bit 15 set: the register drops this bit.
#[derive(Drop)]
pub enum Order {
    /// An action without a parameter: a command, or a query whose answer might have to wait.
    Do(Action),
    /// A query that is answered at once.
    Ask(Question),
    /// `*ESE`, `*SRE`, `STATus:..:ENABle`, `PTRansition` and `NTRansition`: set an enable or a
    /// filter. The mask of `*SRE` is without bit 6.
    Apply(StatusChange),
    /// Change a setting of the scanner. A range can be any voltage up to 1,000 V in magnitude here:
    /// the scanner checks whether it has this range.
    Set(Setting),
    /// `CONFigure:VOLTage`: abort, then configure a measurement, with this channel list if one is
    /// given.
    Configure(Option<ScanList>),
    /// `MEASure:VOLTage?`: configure as [`Order::Configure`] does, begin a measurement, and return
    /// its readings.
    Measure(Option<ScanList>),
}
