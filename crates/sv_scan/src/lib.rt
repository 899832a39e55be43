//! The scanner: inputs, settings, the trigger state, the readings of a scan, and the conditions
//! that the status registers watch (SCPI-1999, volume 2, chapters 20 and 24).
//!
//! Voltages are in microvolts. Only [`Scanner::new`] allocates: the memory of all readings.
#![tactic(auto)]

mod acts;
mod current;
mod possible;
mod progress;
mod reading;
mod run;
mod scan_list;
mod scanner;
mod setting;
mod settings;
mod state;
mod touched;
mod words;

pub use acts::{ScanAct, ScanAnswer};
pub use progress::{Progress, Taken};
pub use scan_list::ScanList;
pub use scanner::Scanner;
pub use setting::{Reading, Setting, State};
pub use sv_errors::Source;
pub use touched::Touched;
pub use words::Conditions;
