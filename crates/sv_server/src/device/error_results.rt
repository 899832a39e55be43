//! Makes the results of calls that fail, and the results of calls that succeed without data. Each
//! call's result has the fields that VXI-11 gives it.

ghost use Rattle.std.specs.Prelude.{◌≡◌, ℤ, pos, []};
ghost use Rattle.sv_vxi.specs.Arguments.{OnLink};
ghost use Rattle.sv_vxi.specs.Reading.{plain_call, plain_arguments};
ghost use Rattle.sv_vxi.specs.Results.{Link, Size, Plain, plain_result, data_of};
ghost use Rattle.sv_history.specs.CoreCall.{failure as failed, no_bytes};

use sv_vxi::{Args, ErrorCode, GenericCall, LinkCall, Reason, VxiResult};

/// The result of a call that fails: this error, and all other fields of the result 0 or empty.
pub fn failure(args: &Args<'_>, error: ErrorCode) -> VxiResult<'static>
    ensures result_is { plain_result result ≡ failed (plain_arguments args.now) error }
    ensures short { data_of (plain_result result) ≡ [] }
{
    match *args {
        Args::CreateLink { .. } => no_link(error),
        Args::OnLink { call, .. } => call_failure(&call, error),
        Args::CreateIntrChan { .. } | Args::DestroyIntrChan => plain(error),
    }
}

/// The result of a call on a link that fails: this error, and all other fields of the result 0 or
/// empty.
pub fn call_failure(call: &LinkCall<'_>, error: ErrorCode) -> VxiResult<'static>
    ensures result_is { (lid : ℤ) → plain_result result
        ≡ failed (OnLink lid (plain_call call.now)) error }
    ensures short { data_of (plain_result result) ≡ [] }
{
    match *call {
        LinkCall::DeviceWrite { .. } => written(error, 0),
        LinkCall::DeviceRead { .. } => nothing_read(error),
        LinkCall::Generic {
            call: GenericCall::Readstb,
            ..
        } => VxiResult::Status { error, stb: 0 },
        LinkCall::DeviceDocmd { .. } => VxiResult::Data { error, bytes: &[] },
        _ => plain(error),
    }
}

/// A result that consists of an error alone.
pub fn plain(error: ErrorCode) -> VxiResult<'static>
    ensures { plain_result result ≡ Plain error }
{
    VxiResult::Plain { error }
}

/// The result of a create_link that made no link.
pub fn no_link(error: ErrorCode) -> VxiResult<'static>
    ensures { plain_result result ≡ Link error (pos 0) 0 0 }
{
    VxiResult::Link {
        error,
        lid: 0,
        abort_port: 0,
        max_recv_size: 0,
    }
}

/// The result of a device_write that accepted `size` bytes.
pub fn written(error: ErrorCode, size: u32) -> VxiResult<'static>
    ensures { plain_result result ≡ Size error size }
{
    VxiResult::Size { error, size }
}

/// The result of a device_read that returns no bytes.
pub fn nothing_read(error: ErrorCode) -> VxiResult<'static>
    ensures result_is { plain_result result ≡ no_bytes error }
    ensures short { data_of (plain_result result) ≡ [] }
{
    VxiResult::Read {
        error,
        reason: Reason {
            request_count: false,
            character: false,
            end: false,
        },
        bytes: &[],
    }
}
