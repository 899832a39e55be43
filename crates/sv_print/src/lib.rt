//! Writes text in parts to a writer: bytes, numbers and hexadecimal. Allocates nothing.
#![tactic(auto)]

mod parts;
mod writing;

pub use parts::{Part, put, put_parts, put_two};
pub use writing::WriteFault;
