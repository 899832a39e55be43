//! The value of a decimal number in 64 bits, capped at [`MOST`], which is beyond the range of every
//! parameter.

ghost use Rattle.std.specs.Prelude.{◌≡◌, ◌≤◌, ◌<◌, ◌*◌, ◌^◌, ◌+◌, ◌++◌, true, min, length, take, slice_index_or, nat_le, if◌then◌else◌};
ghost use Rattle.std.specs.Char.{digit_value, is_ascii_digit};
ghost use Rattle.std.specs.List.{list_all};
ghost use Rattle.std.specs.Str.Parse.{digits_value};
ghost use Rattle.sv_value.specs.Number.{left, magnitude as magnitude_of, nearest, right};
ghost use Rattle.sv_value.specs.Plain.{plain};

use crate::decimal::Decimal;
use crate::digits::{MOST, value_after, value_of};

/// Returns the magnitude of a number times 10 to the power `power`, rounded to the nearest whole
/// number, half up; or [`MOST`] if the result is larger.
pub(crate) fn magnitude(number: &Decimal<'_>, power: u64) -> u64
    requires power { power ≤ 9 }
    requires moved { digits_value 10 number.now.exponent.now ≤ 32000 }
    requires whole { list_all is_ascii_digit number.now.whole.now ≡ true }
    requires fraction { list_all is_ascii_digit number.now.fraction.now ≡ true }
    ensures { result ≡ min (magnitude_of power (plain number.now)) 1000000000000000000 }
{
    let (right, left) = moved(number);
    let up = power + right;
    let down = number.fraction.len() as u64 + left;
    if up >= down {
        let value = value_after(10, value_after(10, 0, number.whole), number.fraction);
        shifted(value, up - down)
    } else {
        rounded(number.whole, number.fraction, down - up)
    }
}

/// Returns by how many places the exponent moves the decimal point to the right, and by how many to
/// the left. At least one of the two numbers is 0.
fn moved(number: &Decimal<'_>) -> (u64, u64)
    requires { digits_value 10 number.now.exponent.now ≤ 32000 }
    ensures right { result.0 ≡ right (plain number.now) }
    ensures left { result.1 ≡ left (plain number.now) }
    ensures few { (result.0 ≤ 32000) × (result.1 ≤ 32000) }
{
    let exponent = value_after(10, 0, number.exponent);
    if number.down {
        (0, exponent)
    } else {
        (exponent, 0)
    }
}

/// Returns `value` times 10 to the power `tens`, or [`MOST`] if the product is larger.
fn shifted(value: u64, tens: u64) -> u64
    requires { value ≤ 1000000000000000000 }
    ensures { result ≡ min (value * 10 ^ tens) 1000000000000000000 }
{
    if value == 0 {
        return 0;
    }
    if tens > 18 {
        return MOST;
    }
    MOST.min(value.saturating_mul(10_u64.pow(tens as u32)))
}

/// Returns the value of all digits but the last `left_out` ones, plus 1 if the first digit that is
/// left out is 5 or above; or [`MOST`] if the result is larger.
fn rounded(whole: &[u8], fraction: &[u8], left_out: u64) -> u64
    requires some { 1 ≤ left_out }
    requires whole { list_all is_ascii_digit whole.now ≡ true }
    requires fraction { list_all is_ascii_digit fraction.now ≡ true }
    ensures { result ≡ min (nearest (digits_value 10 (whole.now ++ fraction.now)) (10 ^ left_out))
        1000000000000000000 }
{
    let count = whole.len() as u64 + fraction.len() as u64;
    if left_out > count {
        return 0;
    }
    let (front, next) = front_of(whole, fraction, (count - left_out) as usize);
    MOST.min(front + carry(next))
}

/// Returns what rounding adds if this is the first digit that is left out: 1 for 5 and above, else
/// 0.
fn carry(digit: u8) -> u64
    ensures { result ≡ (if nat_le 5 digit then 1 else 0) }
{
    if digit >= 5 { 1 } else { 0 }
}

/// Returns the value of the first `kept` digits, or [`MOST`] if the value is larger; and the digit
/// after them.
fn front_of(whole: &[u8], fraction: &[u8], kept: usize) -> (u64, u8)
    requires { kept < length whole.now + length fraction.now }
    ensures front { result.0 ≡ min (digits_value 10 (take kept (whole.now ++ fraction.now)))
        1000000000000000000 }
    ensures next { result.1 ≡ digit_value (slice_index_or (whole.now ++ fraction.now) kept 0) }
{
    if kept < whole.len() {
        (value_after(10, 0, &whole[..kept]), value_of(whole[kept]))
    } else {
        let behind = kept - whole.len();
        let front = value_after(10, value_after(10, 0, whole), &fraction[..behind]);
        (front, value_of(fraction[behind]))
    }
}
