//! Reading decimal numbers.

ghost use Rattle.std.specs.Prelude.{◌≡◌, ◌<◌, ◌≤◌, ◌^◌, IfSome, option_map, pos, ◌≤ℤ◌};
ghost use Rattle.sv_replay.specs.Reading.{number_at, plain_at, short_at, voltage_at};

/// The greatest number of 18 digits.
const MOST_OF_18: u64 = 999_999_999_999_999_999;

/// The value of these digits, if it is at most `most`.
fn number(digits: &[u8], most: u64) -> Option<u64>
    requires { most < 10 ^ 18 }
    ensures exact { result ≡ number_at most digits.now }
    ensures bounded { IfSome result (λ n. n ≤ most) }
{
    if digits.is_empty() {
        return None;
    }
    let mut value = 0;
    for digit in digits {
        if !digit.is_ascii_digit() {
            return None;
        }
        value = 10 * value + u64::from(*digit - b'0');
        if most < value {
            return None;
        }
    }
    Some(value)
}

/// The value of these digits, if it is at most `most` and they have no leading zero.
#[tactic(auto, unfolding(crate::specs::Reading::plain_at))]
pub(crate) fn plain(digits: &[u8], most: u64) -> Option<u64>
    requires { most < 10 ^ 18 }
    ensures exact { result ≡ plain_at most digits.now }
    ensures bounded { IfSome result (λ n. n ≤ most) }
{
    if let [b'0', _, ..] = digits {
        return None;
    }
    number(digits, most)
}

/// Reads the number of a connection or of a channel, from 0 to 255.
pub(crate) fn byte(digits: &[u8]) -> Option<u8>
    ensures { result ≡ plain_at 255 digits.now }
{
    Some(plain(digits, 255)? as u8)
}

/// The value of these digits, if there are at most 18; they may begin with zeros.
#[tactic(auto, unfolding(crate::specs::Reading::short_at))]
pub(crate) fn short(digits: &[u8]) -> Option<u64>
    ensures exact { result ≡ short_at digits.now }
    ensures bounded { IfSome result (λ n. n < 10 ^ 18) }
{
    if digits.len() > 18 {
        return None;
    }
    number(digits, MOST_OF_18)
}

/// Reads a whole number of microvolts: at most 18 digits, without a sign.
fn unsigned(digits: &[u8]) -> Option<i64>
    ensures exact { result ≡ option_map pos (short_at digits.now) }
    ensures positive { IfSome result (λ n. pos 0 ≤ℤ n) }
{
    Some(short(digits)? as i64)
}

/// Reads a whole number of microvolts: at most 18 digits, perhaps with a minus sign before them.
#[tactic(auto, unfolding(crate::specs::Reading::voltage_at))]
pub(crate) fn voltage(text: &[u8]) -> Option<i64>
    ensures { result ≡ voltage_at text.now }
{
    match text {
        [b'-', digits @ ..] => Some(-unsigned(digits)?),
        digits => unsigned(digits),
    }
}
