//! The status of the instrument: event registers (SCPI-1999, chapter 20, STATus), standard events
//! and the status byte (IEEE 488.2, chapter 11).
//!
//! Nothing allocates.
#![tactic(auto)]

mod register;
mod register_name;
mod standard_event;
mod status_byte;

pub use register::{Register, RegisterAct, RegisterAnswer};
pub use register_name::RegisterName;
pub use standard_event::{StandardAct, StandardAnswer, StandardEvent};
pub use status_byte::{StatusAct, StatusAnswer, StatusByte};
