//! How many connections, links and calls there may be, and how long calls and handles may be.

/// How many connections there may be; they are numbered from 0.
pub const MAX_CONNECTIONS: usize = 16;
/// How many calls may be suspended: one of each connection.
pub(crate) const MAX_WAITING: usize = MAX_CONNECTIONS;
/// How many links there may be at the same time.
pub const MAX_LINKS: usize = 32;
/// How many links may have service requests enabled at the same time: as many as may exist.
pub(crate) const MAX_ENABLED: usize = MAX_LINKS;
/// How many calls may wait on an interrupt channel, including a call of which the peer took only a
/// part.
pub(crate) const MAX_CALLS: usize = 32;
/// How long the handle of a service request may be, in bytes (VXI-11 revision 1.0, section B.6,
/// device_enable_srq).
pub const MAX_HANDLE: usize = 40;
/// The length of the longest device_intr_srq, in bytes: its header (40 bytes), the length field of
/// the handle (4 bytes), and the longest handle, which needs no padding.
pub(crate) const LONGEST_TEXT: usize = 44 + MAX_HANDLE;
/// The length of the longest device_intr_srq as a record, in bytes: the header of its one fragment
/// (4 bytes; RFC 5531, section 11), and the call.
const LONGEST_CALL: usize = 4 + LONGEST_TEXT;
/// How many bytes may wait on an interrupt channel: [`MAX_CALLS`] calls of the greatest length.
pub(crate) const MAX_QUEUED: usize = MAX_CALLS * LONGEST_CALL;
