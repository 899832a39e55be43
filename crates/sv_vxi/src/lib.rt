//! Reading the arguments and writing the results of VXI-11 calls (revision 1.0, sections B.5 and
//! B.6), for the core and the abort channel.
//!
//! Nothing allocates.
#![tactic(auto)]

mod arguments;
mod error_code;
mod flags;
pub mod laws;
pub mod procedure;
mod reading;
mod reason;
mod results;

pub use arguments::{Args, GenericCall, LinkCall, LockWait};
pub use error_code::ErrorCode;
pub use flags::Flags;
pub use reading::read_args;
pub use reason::Reason;
pub use results::{VxiResult, write_result};
pub use sv_xdr::Garbage;
