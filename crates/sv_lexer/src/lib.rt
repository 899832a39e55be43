//! Program message units: the header and the parameters of a unit, each a slice of the unit with
//! its position (IEEE 488.2, 7.6 and 7.7).
//!
//! [`unit`] reads a complete unit. [`Partial`] reads a unit while its bytes come one by one.
//! Nothing allocates.
#![tactic(auto)]

mod commas;
pub mod laws;
mod params;
mod partial;
mod parts;
mod reading;
mod stage;
mod token;

pub use params::Params;
pub use partial::Partial;
pub use parts::Unit;
pub use reading::unit;
pub use token::{Kind, Token};
