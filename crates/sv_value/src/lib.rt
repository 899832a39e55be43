//! Values of parameters: voltages, whole numbers, booleans, sources of triggers and channel lists;
//! and printing response data (IEEE 488.2, 7.7 and 8.7; SCPI-1999, volume 1).
//!
//! Nothing allocates, and nothing is a floating-point number.
#![tactic(auto)]

mod amount;
mod based;
mod channels;
mod choice;
mod decimal;
mod digits;
pub mod laws;
mod number;
pub mod printing;
mod suffix;
mod value;
mod writing;

pub use value::{boolean, channel_list, keyword, microvolts, whole};
pub use writing::write_microvolts;
