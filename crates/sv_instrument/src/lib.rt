//! The instrument: reads each program message unit (a command or a query), and executes it by
//! changing the instrument's layers (IEEE 488.2; SCPI-1999; VXI-11).
//!
//! The caller calls a function for each thing that happens to the instrument. Then the caller calls
//! [`Instrument::fire`] and [`Instrument::step`], in this order, until neither of them does
//! anything. Only [`Instrument::new`] allocates: the memory of all layers and of one answer. Each
//! function that changes something returns how many requests for service it raised.
#![tactic(auto)]

mod command;
mod instrument;
pub mod laws;
mod looking;
mod message_io;
mod orders;
mod polling;
mod queries;
mod readings;
mod request_count;
mod scanning;
mod steps;
mod stimuli;
mod unit_effects;
mod unit_start;

pub use command::order::Order;
pub use command::read_unit;
pub use instrument::Instrument;
pub use looking::Step;
