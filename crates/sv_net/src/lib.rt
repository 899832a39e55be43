//! The command line of the program scanvolt, and the sockets of a server, over mio.
//!
//! The sockets are the wire of a driver on a real machine. The methods of this wire don't block. A
//! read, write or accept that would have blocked isn't tried again until the system reports
//! something about the socket.
#![tactic(auto)]

mod buffer;
mod client;
mod control;
mod fault;
pub mod laws;
mod listener;
mod machine;
mod net;
mod serving;
mod sleep_time;
mod socket;
mod stream;
mod watch;
mod words;
mod work;

pub use control::Control;
pub use fault::ProgramFault;
pub use machine::{Machine, System};
pub use net::Net;
pub use serving::serve;
pub use stream::Stream;
pub use watch::Watch;
pub use words::{Serve, Words, read_words};
