//! The busy-polling policy of a server: whether to poll again without sleeping, which costs a core,
//! or to sleep now, which costs a wake-up. Also by how many milliseconds each sweep advances the
//! server's clock.
#![tactic(auto)]

mod pace;

pub use pace::{FEW, Pace, STILL};
