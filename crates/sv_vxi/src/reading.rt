//! Reading the arguments of calls (VXI-11 revision 1.0, sections B.5 and B.6).

ghost use Rattle.std.specs.Prelude.{◌≡◌, ◌++◌, [], ◌∷◌, Result, true};
ghost use Rattle.sv_xdr.specs.declared.garbage.Garbage.{Garbage};
ghost use Rattle.sv_vxi.specs.Arguments.{Arguments, Generic, ArgumentsAre, core_calls, abort_calls, is_one_of};
ghost use Rattle.sv_vxi.specs.Reading.{arguments_at, read_on_link, unsigned, plain_call, plain_reading};

use crate::arguments::{Args, GenericCall, LinkCall};
use crate::flags::Flags;
use crate::procedure::{
    CREATE_INTR_CHAN, CREATE_LINK, DESTROY_LINK, DEVICE_ABORT, DEVICE_CLEAR, DEVICE_DOCMD,
    DEVICE_ENABLE_SRQ, DEVICE_LOCAL, DEVICE_LOCK, DEVICE_READ, DEVICE_READSTB, DEVICE_REMOTE,
    DEVICE_TRIGGER, DEVICE_UNLOCK, DEVICE_WRITE,
};
use sv_xdr::{Garbage, Reader};

/// How long the handle of a service request may be, in bytes (VXI-11 revision 1.0, section B.6,
/// device_enable_srq).
const MAX_HANDLE: u32 = 40;

/// Reads the arguments of the call with number `proc`, which must be a call of the core channel or
/// device_abort. Bytes after the last field are ignored.
///
/// # Errors
/// [`Garbage`] if the bytes don't begin with an encoding of the arguments: a field is missing, a
/// boolean is neither 0 nor 1, a byte of padding isn't 0, or a handle is longer than 40 bytes.
pub fn read_args(proc: u32, bytes: &[u8]) -> Result<Args<'_>, Garbage>
    requires { is_one_of (core_calls ++ abort_calls) proc ≡ true }
    // `ArgumentsAre` states: the bytes encode the arguments that are returned; or the result is
    // `Garbage`, and the bytes don't encode arguments of this call.
    ensures found { ArgumentsAre proc bytes.now (plain_reading result) }
    // `ArgumentsAre` holds for no other result.
    ensures only { (outcome : Result Arguments Garbage) → ArgumentsAre proc bytes.now outcome
        → plain_reading result ≡ outcome }
    ensures exact { plain_reading result ≡ arguments_at proc bytes.now }
{
    args_of(proc, bytes)
}

fn args_of(proc: u32, bytes: &[u8]) -> Result<Args<'_>, Garbage>
    ensures { plain_reading result ≡ arguments_at proc bytes.now }
{
    match proc {
        DEVICE_ABORT => alone(bytes, LinkCall::DeviceAbort),
        CREATE_LINK => create_link(bytes),
        DEVICE_WRITE => device_write(bytes),
        DEVICE_READ => device_read(bytes),
        DEVICE_READSTB => generic(bytes, GenericCall::Readstb),
        DEVICE_TRIGGER => generic(bytes, GenericCall::Trigger),
        DEVICE_CLEAR => generic(bytes, GenericCall::Clear),
        DEVICE_REMOTE => generic(bytes, GenericCall::Remote),
        DEVICE_LOCAL => generic(bytes, GenericCall::Local),
        DEVICE_LOCK => device_lock(bytes),
        DEVICE_UNLOCK => alone(bytes, LinkCall::DeviceUnlock),
        DEVICE_ENABLE_SRQ => device_enable_srq(bytes),
        DEVICE_DOCMD => device_docmd(bytes),
        DESTROY_LINK => alone(bytes, LinkCall::DestroyLink),
        CREATE_INTR_CHAN => create_intr_chan(bytes),
        _ => Ok(Args::DestroyIntrChan),
    }
}

fn create_link(bytes: &[u8]) -> Result<Args<'_>, Garbage>
    ensures { plain_reading result ≡ arguments_at 10 bytes.now }
{
    let mut reader = Reader::new(bytes);
    Ok(Args::CreateLink {
        client_id: reader.i32()?,
        lock_device: reader.boolean()?,
        lock_timeout: reader.u32()?,
        device: reader.opaque(u32::MAX)?,
    })
}

fn device_write(bytes: &[u8]) -> Result<Args<'_>, Garbage>
    ensures { plain_reading result ≡ arguments_at 11 bytes.now }
{
    let mut reader = Reader::new(bytes);
    Ok(Args::OnLink {
        lid: reader.i32()?,
        call: LinkCall::DeviceWrite {
            io_timeout: reader.u32()?,
            lock_timeout: reader.u32()?,
            flags: Flags(reader.u32()?),
            bytes: reader.opaque(u32::MAX)?,
        },
    })
}

fn device_read(bytes: &[u8]) -> Result<Args<'_>, Garbage>
    ensures { plain_reading result ≡ arguments_at 12 bytes.now }
{
    let mut reader = Reader::new(bytes);
    Ok(Args::OnLink {
        lid: reader.i32()?,
        call: LinkCall::DeviceRead {
            request_size: reader.u32()?,
            io_timeout: reader.u32()?,
            lock_timeout: reader.u32()?,
            flags: Flags(reader.u32()?),
            term_char: reader.u32()?,
        },
    })
}

/// Reads Device_GenericParms for `call`, one of the five calls with these arguments.
fn generic(bytes: &[u8], call: GenericCall) -> Result<Args<'_>, Garbage>
    ensures { plain_reading result
        ≡ read_on_link (unsigned ∷ unsigned ∷ unsigned ∷ []) (Generic call) bytes.now }
{
    let mut reader = Reader::new(bytes);
    Ok(Args::OnLink {
        lid: reader.i32()?,
        call: LinkCall::Generic {
            call,
            flags: Flags(reader.u32()?),
            lock_timeout: reader.u32()?,
            io_timeout: reader.u32()?,
        },
    })
}

fn device_lock(bytes: &[u8]) -> Result<Args<'_>, Garbage>
    ensures { plain_reading result ≡ arguments_at 18 bytes.now }
{
    let mut reader = Reader::new(bytes);
    Ok(Args::OnLink {
        lid: reader.i32()?,
        call: LinkCall::DeviceLock {
            flags: Flags(reader.u32()?),
            lock_timeout: reader.u32()?,
        },
    })
}

fn device_enable_srq(bytes: &[u8]) -> Result<Args<'_>, Garbage>
    ensures { plain_reading result ≡ arguments_at 20 bytes.now }
{
    let mut reader = Reader::new(bytes);
    Ok(Args::OnLink {
        lid: reader.i32()?,
        call: LinkCall::DeviceEnableSrq {
            enable: reader.boolean()?,
            handle: reader.opaque(MAX_HANDLE)?,
        },
    })
}

fn device_docmd(bytes: &[u8]) -> Result<Args<'_>, Garbage>
    ensures { plain_reading result ≡ arguments_at 22 bytes.now }
{
    let mut reader = Reader::new(bytes);
    Ok(Args::OnLink {
        lid: reader.i32()?,
        call: LinkCall::DeviceDocmd {
            flags: Flags(reader.u32()?),
            io_timeout: reader.u32()?,
            lock_timeout: reader.u32()?,
            cmd: reader.i32()?,
            network_order: reader.boolean()?,
            datasize: reader.i32()?,
            bytes: reader.opaque(u32::MAX)?,
        },
    })
}

fn create_intr_chan(bytes: &[u8]) -> Result<Args<'_>, Garbage>
    ensures { plain_reading result ≡ arguments_at 25 bytes.now }
{
    let mut reader = Reader::new(bytes);
    Ok(Args::CreateIntrChan {
        host_addr: reader.u32()?,
        host_port: reader.u32()?,
        prog_num: reader.u32()?,
        prog_vers: reader.u32()?,
        prog_family: reader.u32()?,
    })
}

/// Reads the arguments of a call that has no argument but the link.
fn alone<'a>(bytes: &[u8], call: LinkCall<'a>) -> Result<Args<'a>, Garbage>
    ensures { plain_reading result ≡ read_on_link [] (plain_call call.entry) bytes.now }
{
    Ok(Args::OnLink {
        lid: Reader::new(bytes).i32()?,
        call,
    })
}
