//! Reading the arguments of a call: link and size (VXI-11 revision 1.0, section B.6).

ghost use Rattle.std.specs.Prelude.{◌≡◌};
ghost use Rattle.sv_vxi.specs.Reading.{plain_call};
ghost use Rattle.sv_history.specs.CoreCall.{lid_of as lid_for, is_too_long as too_long};

use sv_exchange::MAX_MESSAGE;
use sv_vxi::LinkCall;

/// The number of the link that a call names; `None` if the call names no link, or a negative
/// number, which no link has.
pub fn lid_of(named: Option<i32>) -> Option<u32>
    ensures { result ≡ lid_for named }
{
    u32::try_from(named?).ok()
}

/// Whether the call is a write of more bytes than a write may have.
pub fn is_too_long(call: &LinkCall<'_>) -> bool
    ensures { result ≡ too_long (plain_call call.now) }
{
    if let LinkCall::DeviceWrite { bytes, .. } = *call {
        return bytes.len() > MAX_MESSAGE;
    }
    false
}
