//! Links (VXI-11 revision 1.0): which connection owns each link, which link holds the lock, which
//! calls are suspended, and what is sent on interrupt channels.
//!
//! [`Links`] gives each new link its number, finds the connection that made a link, and records
//! which link holds the lock. [`Waiting`] stores the suspended calls, the oldest first. It finds
//! the oldest call that can resume, and the oldest call whose deadline has come. [`Intr`] stores
//! the links that have service requests enabled, and the calls that wait on interrupt channels.
//! Only [`Links::create`], [`Links::reserve`], [`Waiting::new`], [`Intr::new`] and
//! [`Intr::prepare`] allocate; no contract states this.
#![tactic(auto)]

mod channel;
mod enabled;
mod intr;
mod limits;
mod links;
mod request;
mod waiting;

pub use intr::Intr;
pub use limits::{MAX_CONNECTIONS, MAX_HANDLE, MAX_LINKS};
pub use links::{CreateRefused, Link, Links};
pub use request::Peer;
pub use waiting::{Entry, Wait, Waiting, is_locked_out};
