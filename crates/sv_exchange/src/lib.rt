//! Message exchange (IEEE 488.2, 6.1 and 6.3): program text, its messages and units, and the
//! response.
//!
//! [`Exchange`] accepts the bytes of writes, decides which step is due, and returns the response to
//! reads. It reads the next unit with `sv_lexer` while the bytes of the unit come. Only
//! [`Exchange::new`] allocates.
#![tactic(auto)]

mod ahead;
mod exchange;
mod limits;
mod message;
mod read;

pub use exchange::{Exchange, Next};
pub use limits::{MAX_MESSAGE, MAX_READ, MAX_RESPONSE};
pub use read::Read;
