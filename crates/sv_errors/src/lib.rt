//! The error queue, and what else the instrument's crates share: error codes, ranges of numbers,
//! sources of triggers, and the trait `Layer` of the instrument's parts.
//!
//! Only [`ErrorQueue::new`] allocates.
#![tactic(auto)]

mod code;
mod error_queue;
mod layer;
mod limits;
mod source;

pub use code::Code;
pub use error_queue::{ErrorQueue, MOST_ERRORS, QueueAct, QueueAnswer};
pub use layer::{Layer, act_each};
pub use limits::{
    CHANNELS, LONGEST_LIST, MOST_MICROVOLTS, MOST_READINGS, MOST_SCANS, is_channel, is_channel_list,
};
pub use source::Source;
