//! The specification of the server: it defines events, the log of what events did, and what each
//! function of the server returns for a log; with lemmas about these.
//!
//! Nothing here runs. `sv_server` is the code; its contracts cite these definitions.
#![tactic(auto)]

mod event;

pub use event::{Config, Dial, Did, Event, Port, Refused, Role};
