//! Bytes that don't encode the required fields.

use crate::fault::XdrFault;
use thiserror::Error;

/// The bytes don't begin with an encoding of the required fields, so the arguments of an RPC call
/// can't be read (RFC 5531, section 9, GARBAGE_ARGS). The fault doesn't say which field is wrong.
#[derive(Clone, Copy, Debug, Error)]
#[error("the arguments can't be read")]
pub struct Garbage;

impl From<XdrFault> for Garbage {
    fn from(_fault: XdrFault) -> Garbage {
        Garbage
    }
}
