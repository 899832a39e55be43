//! The units that the suffixes of numbers stand for.

ghost use Rattle.std.specs.Prelude.{◌≡◌};
ghost use Rattle.sv_value.specs.Value.{power_of_none, power_of_volts};

use crate::choice::is_same;

/// Returns the power of ten that turns the unit of a suffix into microvolts; `None` if the suffix
/// names no unit of voltage. Without a suffix the unit is the volt.
pub(crate) fn volts(suffix: &[u8]) -> Option<u64>
    ensures { result ≡ power_of_volts suffix.now }
{
    if suffix.is_empty() || is_same(suffix, b"V") {
        return Some(6);
    }
    if is_same(suffix, b"KV") {
        return Some(9);
    }
    if is_same(suffix, b"MV") {
        return Some(3);
    }
    if is_same(suffix, b"UV") {
        Some(0)
    } else {
        None
    }
}

/// Returns the power of ten for a number whose parameter has no unit: 0 if the number has no
/// suffix; `None` if it has one, which isn't allowed.
pub(crate) fn none(suffix: &[u8]) -> Option<u64>
    ensures { result ≡ power_of_none suffix.now }
{
    if suffix.is_empty() { Some(0) } else { None }
}
