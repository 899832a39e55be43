//! The server: events go in, and the bytes of every reply come out.
//!
//! The server has four parts, and the first file of each says what the part does. [`device`] is
//! what all connections share, [`connection`] is one connection, [`server`] joins both, and
//! [`replay`] prints. `device` and `connection` don't use each other; both use [`conn`], the number
//! of a connection, and [`outcome`], what comes of a call. The crate `sv_history` specifies what
//! the server has to do.
#![tactic(auto)]

mod conn;
mod connection;
mod device;
mod explain;
mod outcome;
mod replay;
mod server;

pub use replay::{ReplayFault, is_no_memory};
pub use server::Server;
pub use server::input_check::input_refusal;
pub use sv_history::{Config, Dial, Did, Event, Port, Refused, Role};
pub use sv_laws::laws;
