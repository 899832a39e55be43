//! Appending bytes to a vector, and dropping bytes from its front.
//!
//! No function here allocates.
#![tactic(auto)]

mod piece;

pub use piece::{append, drop_front};
