//! The arguments of calls (VXI-11 revision 1.0, sections B.5 and B.6), and what they say about the
//! lock and the link of a call.

ghost use Rattle.std.specs.Prelude.{◌≡◌};
ghost use Rattle.sv_vxi.specs.Arguments.{link as link_by, lock_wait as lock_wait_by, is_create_link as makes_link};
ghost use Rattle.sv_vxi.specs.Reading.{plain_call, plain_arguments};

use crate::flags::Flags;

/// What a call does while another link holds the lock (section B.4.4).
#[derive(Clone, Copy)]
pub struct LockWait {
    /// Whether the call waits for the lock. If this is false, the call fails at once.
    pub waits: bool,
    /// How long the call waits, in milliseconds.
    pub timeout: u32,
}

/// The calls whose arguments are Device_GenericParms.
#[derive(Clone, Copy)]
pub enum GenericCall {
    /// device_readstb.
    Readstb,
    /// device_trigger.
    Trigger,
    /// device_clear.
    Clear,
    /// device_remote.
    Remote,
    /// device_local.
    Local,
}

/// The arguments of a call on a link, without the link itself. Timeouts are in milliseconds.
#[derive(Clone, Copy)]
pub enum LinkCall<'a> {
    /// The arguments of device_abort: none. device_abort aborts the call that is in progress on the
    /// link.
    DeviceAbort,
    /// The arguments of device_write.
    DeviceWrite {
        /// How long to wait for the device.
        io_timeout: u32,
        /// How long to wait for the lock.
        lock_timeout: u32,
        /// Whether the call waits for the lock, and whether the last byte has END.
        flags: Flags,
        /// The bytes for the device.
        bytes: &'a [u8],
    },
    /// The arguments of device_read.
    DeviceRead {
        /// The most bytes to return.
        request_size: u32,
        /// How long to wait for the device.
        io_timeout: u32,
        /// How long to wait for the lock.
        lock_timeout: u32,
        /// Whether the call waits for the lock, and whether the termination character ends the
        /// read.
        flags: Flags,
        /// The termination character, in the low eight bits.
        term_char: u32,
    },
    /// The arguments of the five calls with Device_GenericParms.
    Generic {
        /// Which of the five calls it is.
        call: GenericCall,
        /// Whether the call waits for the lock.
        flags: Flags,
        /// How long to wait for the lock.
        lock_timeout: u32,
        /// How long to wait for the device.
        io_timeout: u32,
    },
    /// The arguments of device_lock.
    DeviceLock {
        /// Whether the call waits for the lock.
        flags: Flags,
        /// How long to wait for the lock.
        lock_timeout: u32,
    },
    /// The arguments of device_unlock: none.
    DeviceUnlock,
    /// The arguments of device_enable_srq.
    DeviceEnableSrq {
        /// Whether service requests are enabled.
        enable: bool,
        /// The handle that each service request carries, at most 40 bytes.
        handle: &'a [u8],
    },
    /// The arguments of device_docmd.
    DeviceDocmd {
        /// Whether the call waits for the lock.
        flags: Flags,
        /// How long to wait for the device.
        io_timeout: u32,
        /// How long to wait for the lock.
        lock_timeout: u32,
        /// The command.
        cmd: i32,
        /// Whether the data are in network byte order.
        network_order: bool,
        /// The size of an element of the data, in bytes.
        datasize: i32,
        /// The data of the command.
        bytes: &'a [u8],
    },
    /// The arguments of destroy_link: none.
    DestroyLink,
}

/// The arguments of a call. Timeouts are in milliseconds.
#[derive(Clone, Copy)]
pub enum Args<'a> {
    /// The arguments of create_link.
    CreateLink {
        /// The number by which the client identifies itself.
        client_id: i32,
        /// Whether the link takes the lock when it is created.
        lock_device: bool,
        /// How long to wait for the lock.
        lock_timeout: u32,
        /// The name of the device.
        device: &'a [u8],
    },
    /// The arguments of a call on a link.
    OnLink {
        /// The number of the link.
        lid: i32,
        /// The call, and its other arguments.
        call: LinkCall<'a>,
    },
    /// The arguments of create_intr_chan.
    CreateIntrChan {
        /// The address that the server connects to, as a 32-bit number.
        host_addr: u32,
        /// The port that the server connects to. Numbers above 65,535 can be read too.
        host_port: u32,
        /// The RPC program to which the server sends service requests.
        prog_num: u32,
        /// The version of the program.
        prog_vers: u32,
        /// 0 for TCP, 1 for UDP. All other numbers can be read too.
        prog_family: u32,
    },
    /// The arguments of destroy_intr_chan: none.
    DestroyIntrChan,
}

impl LinkCall<'_> {
    /// What the call does while another link holds the lock; `None` if it is executed nevertheless.
    pub fn lock_wait(&self) -> Option<LockWait>
        ensures { result ≡ lock_wait_by (plain_call self.now) }
    {
        match *self {
            LinkCall::DeviceWrite {
                flags,
                lock_timeout,
                ..
            }
            | LinkCall::DeviceRead {
                flags,
                lock_timeout,
                ..
            }
            | LinkCall::Generic {
                flags,
                lock_timeout,
                ..
            }
            | LinkCall::DeviceLock {
                flags,
                lock_timeout,
            }
            | LinkCall::DeviceDocmd {
                flags,
                lock_timeout,
                ..
            } => Some(LockWait {
                waits: flags.has_wait_lock(),
                timeout: lock_timeout,
            }),
            _ => None,
        }
    }
}

impl Args<'_> {
    /// The number of the link on which the call is made; `None` if no argument is a link.
    pub fn link(&self) -> Option<i32>
        ensures { result ≡ link_by (plain_arguments self.now) }
    {
        match *self {
            Args::OnLink { lid, .. } => Some(lid),
            _ => None,
        }
    }

    /// Whether the call is create_link.
    pub fn is_create_link(&self) -> bool
        ensures { result ≡ makes_link (plain_arguments self.now) }
    {
        matches!(*self, Args::CreateLink { .. })
    }
}
