//! Reading the header of a call.

ghost use Rattle.std.specs.Prelude.{◌≡◌, Result};
ghost use Rattle.sv_rpc.specs.declared.call.CallFault.{CallFault};
ghost use Rattle.sv_rpc.specs.Call.{PlainCall, CallIs, plain_call, call_at, plain_call_result};

use sv_xdr::{Reader, XdrFault};
use thiserror::Error;

/// How long the body of a credential or a verifier may be, in bytes (RFC 5531, section 8.2).
const MAX_AUTH: u32 = 400;

/// A call, without its credential and verifier.
#[derive(Clone, Copy, Debug)]
pub struct Call<'a> {
    /// The number of the transaction, which the reply repeats.
    pub xid: u32,
    /// The program's number.
    pub prog: u32,
    /// The program's version.
    pub vers: u32,
    /// The procedure's number.
    pub proc: u32,
    /// The arguments and any bytes after them, a slice of the record.
    pub args: &'a [u8],
}

/// Why a record isn't a call that a program can answer.
#[derive(Clone, Copy, Debug, Error)]
pub enum CallFault {
    /// The record isn't a call: it is too short, its message type isn't 0, or, with RPC version 2,
    /// a later field of the header can't be read. The server sends no reply.
    #[error("the record is no call")]
    BadHeader,
    /// The call with this transaction number uses an RPC version other than 2. The server denies
    /// it, whatever follows the version.
    #[error("another version of RPC than 2")]
    Version(u32),
}

impl From<XdrFault> for CallFault {
    ghost use Rattle.std.specs.Prelude.{◌≡◌};
    ghost use Rattle.sv_rpc.specs.declared.call.CallFault.TheVariants.{BadHeader};

    ghost from_gives = { λ _ e. e ≡ BadHeader };

    fn from(_fault: XdrFault) -> CallFault {
        CallFault::BadHeader
    }
}

/// Reads the bytes of a record as a call (RFC 5531, section 9). The contents of credential and
/// verifier are ignored.
///
/// # Errors
/// The first that applies: `BadHeader` if the transaction number, the message type or the RPC
/// version is missing, or if the message type isn't 0; `Version` if the RPC version isn't 2,
/// whatever follows it; `BadHeader` if a later field can't be read, or if the body of the
/// credential or verifier is longer than 400 bytes.
pub fn read_call(bytes: &[u8]) -> Result<Call<'_>, CallFault>
    // `CallIs` states: the bytes encode the call that is returned; or they encode none, for the
    // reason that the fault gives.
    ensures found { CallIs bytes.now (plain_call_result result) }
    // `CallIs` holds for no other result.
    ensures only { (outcome : Result PlainCall CallFault) → CallIs bytes.now outcome
        → plain_call_result result ≡ outcome }
    // The result, a call or one of two faults, is what `call_at` returns for the bytes.
    ensures exact { plain_call_result result ≡ call_at bytes.now }
{
    call_of(bytes)
}

#[tactic(auto, unfolding(crate::specs::Call::call_at, crate::specs::Call::body_at))]
fn call_of(bytes: &[u8]) -> Result<Call<'_>, CallFault>
    ensures { plain_call_result result ≡ call_at bytes.now }
{
    let mut reader = Reader::new(bytes);
    let xid = reader.u32()?;
    if reader.u32()? != 0 {
        return Err(CallFault::BadHeader);
    }
    if reader.u32()? != 2 {
        return Err(CallFault::Version(xid));
    }
    let prog = reader.u32()?;
    let vers = reader.u32()?;
    let proc = reader.u32()?;
    let _flavor = reader.u32()?;
    let _credential = reader.opaque(MAX_AUTH)?;
    let _flavor = reader.u32()?;
    let _verifier = reader.opaque(MAX_AUTH)?;
    Ok(Call {
        xid,
        prog,
        vers,
        proc,
        args: reader.rest(),
    })
}
