//! Voltages and readings.

ghost use Rattle.std.specs.Prelude.{◌≡◌, ◌-◌, ◌≤◌, true, pos, int_le, unsigned_abs, IsTrue, length, slice_index_or};
ghost use Rattle.sv_errors.specs.Limits.{is_channel};
ghost use Rattle.sv_scan.specs.Scan.{reading_in as reading_of, is_bounded};
ghost use Rattle.sv_scan.specs.Condition.{is_overload as overloads, is_below as lies_below, is_above as lies_above};

use crate::setting::Reading;
use sv_errors::CHANNELS;

/// The voltage of a channel's input, in microvolts.
pub(crate) fn voltage(inputs: &[i64; CHANNELS], channel: u8) -> i64
    requires { IsTrue (is_channel channel) }
    ensures { result ≡ slice_index_or inputs.now (channel - 1) (pos 0) }
{
    inputs[usize::from(channel) - 1]
}

/// The reading of a voltage in a range, both in microvolts.
pub(crate) fn reading_in(range: i64, microvolts: i64) -> Reading
    requires { IsTrue (int_le (pos 0) range) }
    ensures value { result ≡ reading_of range microvolts }
    ensures bounded { unsigned_abs range ≤ 100000000 → is_bounded result ≡ true }
{
    if microvolts > range {
        Reading::Over
    } else if microvolts < -range {
        Reading::Under
    } else {
        Reading::Value(microvolts)
    }
}

/// Whether there is a reading and it is an overload.
pub(crate) fn is_overload(reading: Option<Reading>) -> bool
    ensures { result ≡ overloads reading }
{
    matches!(reading, Some(Reading::Over | Reading::Under))
}

/// Whether there is a reading and it is below a limit, in microvolts. A negative overload counts as
/// below every limit.
pub(crate) fn is_below(reading: Option<Reading>, limit: i64) -> bool
    ensures { result ≡ lies_below reading limit }
{
    match reading {
        Some(Reading::Value(microvolts)) => microvolts < limit,
        other => matches!(other, Some(Reading::Under)),
    }
}

/// Whether there is a reading and it is above a limit, in microvolts. A positive overload counts as
/// above every limit.
pub(crate) fn is_above(reading: Option<Reading>, limit: i64) -> bool
    ensures { result ≡ lies_above reading limit }
{
    match reading {
        Some(Reading::Value(microvolts)) => microvolts > limit,
        other => matches!(other, Some(Reading::Over)),
    }
}
