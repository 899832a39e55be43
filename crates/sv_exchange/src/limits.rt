//! How many bytes message exchange accepts, stores and returns.

/// How long a program message may be, and how long one write may be.
pub const MAX_MESSAGE: usize = 4096;
/// How many bytes of text can be stored: a message that hasn't ended (4,096), and one more write
/// (4,096).
pub(crate) const MAX_TEXT: usize = 8192;
/// How long a response may be, with its new line.
pub const MAX_RESPONSE: usize = 32_768;
/// How many bytes one read returns, at most.
pub const MAX_READ: usize = 8192;
