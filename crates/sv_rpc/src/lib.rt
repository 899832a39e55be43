//! RPC over a stream (RFC 5531): records, the headers of calls and replies, and the port mapper's
//! GETPORT (RFC 1833).
//!
//! Only [`RecordBuf::new`] allocates.
#![tactic(auto)]

use std::alloc::AllocError;

mod call;
pub mod laws;
mod ports;
mod record_buf;
mod reply;
mod sending;

pub use call::{Call, CallFault, read_call};
pub use ports::{Ports, getport};
pub use record_buf::{RecordBuf, RpcFault};
pub use reply::{Reply, write_call, write_reply};
pub use sending::put_record;
pub use sv_xdr::Garbage;

/// The error of an allocation: memory was refused.
pub type NoMemory = AllocError;
