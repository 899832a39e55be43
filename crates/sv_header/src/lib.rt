//! Headers of commands: which command a header names, how many parameters this command takes, and
//! from which path the next header starts (SCPI-1999, volume 1, chapter 6).
//!
//! Only [`Table::new`] allocates.
#![tactic(auto)]

mod arity;
mod branch;
mod command;
pub mod laws;
mod left;
mod path;
mod pattern;
mod resolving;
mod table;
mod walk;

pub use command::{Action, CommandId, Question, SettingName};
pub use path::Path;
pub use resolving::Table;
