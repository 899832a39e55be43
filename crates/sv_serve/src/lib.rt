//! The server's driver (it drives the server, and is no driver of an instrument): in rounds called
//! sweeps, it passes bytes between a server and its sockets (the wire), and tells the server the
//! time. In a sweep it serves each socket once, and applies the wire's answers to the server.
#![tactic(auto)]

mod accepting;
mod closing;
mod dialing;
mod driver;
mod journal;
mod passing;
mod reading;
mod still;
mod sweeping;
mod turning;
mod wire;
mod writing;

pub use driver::Driver;
pub use journal::Journal;
pub use wire::{Answer, Wire};
