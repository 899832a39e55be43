//! Replays and explains scripts (texts of events), and reads scenarios (timed inputs and triggers).
//! A script's lines are read, the events are applied to a server, and the replies are printed. A
//! scenario is only read.
#![tactic(auto)]

mod entry;
mod fault;
mod hex_digits;
mod input;
pub mod laws;
mod line;
mod mode;
mod number;
mod perform;
mod ports;
mod run;
mod run_state;
mod scenario;
mod text;

pub use entry::{Entry, Stimulus, read_stimulus};
pub use fault::RunFault;
pub use input::{InputFault, Source};
pub use line::{Line, read_line};
pub use mode::Mode;
pub use ports::Ports;
pub use run::run_script;
pub use scenario::{ScenarioFault, read_scenario};
