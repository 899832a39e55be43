//! Splitting the text of program messages: white space, the first position of a byte, the parts
//! between separators, and the parts of a header (IEEE 488.2, 7.4).
//!
//! Nothing allocates: the functions return positions in the bytes or slices of them.
#![tactic(auto)]

mod header;
mod part;
mod place;
mod white;

pub use header::{Header, Lead, header_parts};
pub use part::first_part;
pub use place::place_of;
pub use white::{is_space, trim, without_end, without_start};
