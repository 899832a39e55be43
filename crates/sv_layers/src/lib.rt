//! Joins the layers of the instrument (scanner, message exchange, error queue, status). An act,
//! which is one recorded change, changes the layer that it belongs to; then one status register
//! after the other is updated; then the status byte is updated.
//!
//! Only [`Layers::new`] allocates.
#![tactic(auto)]

mod change;
mod changing;
mod ending;
mod laws;
mod layers;
mod message_exchange;
mod polling;
mod status;
mod words;

pub use change::{Awaited, Change, RegisterChange, StatusChange};
pub use laws::{
    one_account, own_acts, same_completion, same_enable, same_events, same_raising, same_requests,
    same_standard_events, same_status, same_summaries, same_waiting, same_words,
};
pub use layers::Layers;
