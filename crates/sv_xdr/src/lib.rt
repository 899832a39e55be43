//! Reads the fields of XDR, the external data representation (RFC 4506), from a slice, and writes
//! them into a slice: unsigned and signed integers, booleans and variable-length opaque data.
//!
//! Nothing allocates. A read succeeds exactly if the field's encoding comes next, and a write
//! appends that encoding. A read or write that fails changes nothing.
#![tactic(auto)]

mod fault;
mod garbage;
pub mod laws;
mod reader;
mod writer;

pub use fault::XdrFault;
pub use garbage::Garbage;
pub use reader::Reader;
pub use writer::Writer;
