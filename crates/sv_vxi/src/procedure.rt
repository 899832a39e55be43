//! The procedure numbers of the calls (VXI-11 revision 1.0, section B.6).

/// The number of device_abort, the one call of the abort channel.
pub const DEVICE_ABORT: u32 = 1;
/// The number of create_link, the first of the core channel's calls.
pub const CREATE_LINK: u32 = 10;
/// The number of device_write.
pub const DEVICE_WRITE: u32 = 11;
/// The number of device_read.
pub const DEVICE_READ: u32 = 12;
/// The number of device_readstb.
pub const DEVICE_READSTB: u32 = 13;
/// The number of device_trigger.
pub const DEVICE_TRIGGER: u32 = 14;
/// The number of device_clear.
pub const DEVICE_CLEAR: u32 = 15;
/// The number of device_remote.
pub const DEVICE_REMOTE: u32 = 16;
/// The number of device_local.
pub const DEVICE_LOCAL: u32 = 17;
/// The number of device_lock.
pub const DEVICE_LOCK: u32 = 18;
/// The number of device_unlock.
pub const DEVICE_UNLOCK: u32 = 19;
/// The number of device_enable_srq.
pub const DEVICE_ENABLE_SRQ: u32 = 20;
/// The number of device_docmd.
pub const DEVICE_DOCMD: u32 = 22;
/// The number of destroy_link.
pub const DESTROY_LINK: u32 = 23;
/// The number of create_intr_chan.
pub const CREATE_INTR_CHAN: u32 = 25;
/// The number of destroy_intr_chan.
pub const DESTROY_INTR_CHAN: u32 = 26;
