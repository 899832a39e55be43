//! The outcome of a record that was taken, or of a suspended call that continues.

use sv_rpc::Reply;
use sv_vxi::VxiResult;

/// The answer to a call.
#[derive(Clone, Copy)]
pub enum Answer<'a> {
    /// A reply that has only a header. The reply follows from the call's header or arguments; the
    /// device isn't used.
    Header(Reply),
    /// The TCP port that is the result of a GETPORT.
    Port(u32),
    /// The result of a call of the core or the abort channel.
    Result(VxiResult<'a>),
}

/// The outcome of a record that was taken, or of a suspended call that continues.
#[derive(Clone, Copy)]
pub enum Outcome {
    /// The record isn't a call, and its connection is at fault.
    Fault,
    /// The reply gives this answer.
    Reply(Answer<'static>),
    /// The call is a read, and is answered with bytes of the response.
    Response {
        /// The most bytes to return.
        most: u32,
        /// The termination character; `None` if the call's flag termchrset isn't set.
        term: Option<u8>,
    },
    /// The call is suspended.
    Suspended,
}
