//! The results of calls (VXI-11 revision 1.0, sections B.5 and B.6).

ghost use Rattle.std.specs.Prelude.{◌≡◌, ◌<◌, ◌≤◌, ◌^◌, [], map, length, IsErrOf};
ghost use Rattle.sv_xdr.specs.Spelling.{spelling};
ghost use Rattle.sv_xdr.specs.Writer.{WritesEach, Stays};
ghost use Rattle.sv_vxi.specs.ErrorCode.{unless_error as unless_failed};
ghost use Rattle.sv_vxi.specs.Results.{Link, plain_result, result_fields, data_of};

use crate::error_code::ErrorCode;
use crate::reason::Reason;
use sv_xdr::{Writer, XdrFault};

/// The result of a call, with a variant for each form. If there is an error, all other fields are
/// written as 0 or empty, whatever their values.
#[derive(Clone, Copy)]
pub enum VxiResult<'a> {
    /// The result of create_link.
    Link {
        /// Why the call failed, if it did.
        error: ErrorCode,
        /// The number of the link.
        lid: i32,
        /// The port of the abort channel.
        abort_port: u16,
        /// The most bytes that one device_write may have.
        max_recv_size: u32,
    },
    /// The result of device_write.
    Size {
        /// Why the call failed, if it did.
        error: ErrorCode,
        /// How many bytes of the write the device accepted.
        size: u32,
    },
    /// The result of device_read.
    Read {
        /// Why the call failed, if it did.
        error: ErrorCode,
        /// Why the read ended.
        reason: Reason,
        /// The bytes that were read.
        bytes: &'a [u8],
    },
    /// The result of device_readstb.
    Status {
        /// Why the call failed, if it did.
        error: ErrorCode,
        /// The status byte (IEEE 488.2, 11.2).
        stb: u8,
    },
    /// The result of the calls that return nothing but an error.
    Plain {
        /// Why the call failed, if it did.
        error: ErrorCode,
    },
    /// The result of device_docmd.
    Data {
        /// Why the call failed, if it did.
        error: ErrorCode,
        /// The data that the command returns.
        bytes: &'a [u8],
    },
}

impl<'a> VxiResult<'a> {
    /// The data of the result; empty if the result has no data or reports an error.
    fn data(&self) -> &'a [u8]
        ensures { result.now ≡ data_of (plain_result self.now) }
    {
        match *self {
            VxiResult::Read { error, bytes, .. } | VxiResult::Data { error, bytes } => {
                unless_error(error, bytes, &[])
            }
            VxiResult::Link { .. }
            | VxiResult::Size { .. }
            | VxiResult::Status { .. }
            | VxiResult::Plain { .. } => &[],
        }
    }
}

/// Writes a result.
///
/// # Errors
/// `TooLong` if the data are longer than the 4,294,967,295 bytes that a length field can express;
/// nothing is written then. Else `NoRoom` if a field of the result doesn't fit; the fields before
/// that field stay written.
#[tactic(auto, using(sv_xdr::proofs::Appended::each_piece))]
pub fn write_result(writer: &mut Writer<'_>, outcome: &VxiResult<'_>) -> Result<(), XdrFault>
    ensures same_buffer { writer.new.out.ghost_name ≡ writer.old.out.ghost_name }
    ensures writes { length (data_of (plain_result outcome.now)) < 2 ^ 32
        → WritesEach (map spelling (result_fields (plain_result outcome.now))) result writer.old
        writer.new }
    ensures too_long { 2 ^ 32 ≤ length (data_of (plain_result outcome.now))
        → IsErrOf result XdrFault.TooLong × Stays writer.old writer.new }
{
    let data = outcome.data();
    if u32::try_from(data.len()).is_err() {
        return Err(XdrFault::TooLong);
    }
    match *outcome {
        VxiResult::Link {
            error,
            lid,
            abort_port,
            max_recv_size,
        } => write_link(writer, error, lid, abort_port, max_recv_size),
        VxiResult::Size { error, size } => {
            writer.i32(error.number())?;
            writer.u32(unless_error(error, size, 0))
        }
        VxiResult::Read { error, reason, .. } => {
            writer.i32(error.number())?;
            writer.i32(unless_error(error, reason.number(), 0))?;
            writer.opaque(data)
        }
        VxiResult::Status { error, stb } => {
            writer.i32(error.number())?;
            writer.u32(u32::from(unless_error(error, stb, 0)))
        }
        VxiResult::Plain { error } => writer.i32(error.number()),
        VxiResult::Data { error, .. } => {
            writer.i32(error.number())?;
            writer.opaque(data)
        }
    }
}

/// The field of a result: `value`, or `nothing` (0 or empty) if there is an error.
fn unless_error<T: Copy>(error: ErrorCode, value: T, nothing: T) -> T
    ensures { result ≡ unless_failed error value nothing }
{
    let failed = error != ErrorCode::NoError;
    if failed { nothing } else { value }
}

/// Writes the result of create_link.
fn write_link(
    writer: &mut Writer<'_>,
    error: ErrorCode,
    lid: i32,
    abort_port: u16,
    max_recv_size: u32,
) -> Result<(), XdrFault>
    ensures same_buffer { writer.new.out.ghost_name ≡ writer.old.out.ghost_name }
    ensures writes { WritesEach (map spelling
        (result_fields (Link error lid abort_port max_recv_size))) result writer.old writer.new }
{
    writer.i32(error.number())?;
    writer.i32(unless_error(error, lid, 0))?;
    writer.u32(u32::from(unless_error(error, abort_port, 0)))?;
    writer.u32(unless_error(error, max_recv_size, 0))
}
