//! Why a call failed (VXI-11 revision 1.0, section B.5).

ghost use Rattle.std.specs.Prelude.{◌≡◌, pos};
ghost use Rattle.sv_vxi.specs.ErrorCode.{error_number};

/// Why a call failed; `NoError` if it didn't fail.
#[derive(Clone, Copy)]
pub enum ErrorCode {
    /// No error.
    NoError = 0,
    /// There is no device of that name.
    NotAccessible = 3,
    /// No link has the number that the call names; or, for a call of the core channel, the link was
    /// created on another connection.
    InvalidLink = 4,
    /// A parameter is refused. For example, a write has more than 4,096 bytes.
    ParameterError = 5,
    /// There is no interrupt channel.
    NotEstablished = 6,
    /// The operation isn't supported.
    NotSupported = 8,
    /// There are 32 links already, no number remains for a further link, or memory is refused.
    OutOfResources = 9,
    /// Another link holds the lock.
    Locked = 11,
    /// The link doesn't hold the lock.
    NoLock = 12,
    /// The call timed out.
    IoTimeout = 15,
    /// The server isn't allowed to connect to the address or the port.
    InvalidAddress = 21,
    /// The call was aborted.
    Abort = 23,
    /// There is an interrupt channel already.
    AlreadyEstablished = 29,
}

impl ErrorCode {
    /// The number of the error.
    pub fn number(self) -> i32
        ensures { result ≡ pos (error_number self) }
    {
        self as i32
    }
}
