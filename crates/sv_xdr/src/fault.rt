//! Why a field can't be read or written.

use thiserror::Error;

/// Why a field can't be read or written. A fault leaves the reader or writer unchanged.
#[derive(Clone, Copy, Debug, Error)]
pub enum XdrFault {
    /// The bytes end before the field does.
    #[error("the bytes end before the field does")]
    Short = 1,
    /// A byte that pads opaque data to a multiple of four isn't zero (RFC 4506, section 4.10).
    #[error("a byte of padding is not zero")]
    BadPad = 2,
    /// A boolean is neither 0 nor 1 (RFC 4506, section 4.4).
    #[error("a boolean is neither 0 nor 1")]
    BadBool = 3,
    /// Opaque data are too long. For a reader: longer than the maximum that its caller passed. For
    /// a writer: longer than the 4,294,967,295 bytes that a length field can express.
    #[error("the opaque data are too long")]
    TooLong = 4,
    /// The encoded field is longer than the room that remains in the buffer.
    #[error("there is no room for the field")]
    NoRoom = 5,
}
