//! Reading bytes of two hexadecimal digits each.

ghost use Rattle.std.specs.Prelude.{◌≡◌, ◌<◌, ◌≤◌, length, take, option_map, IfSome};
ghost use Rattle.sv_replay.specs.Reading.{hex_digit_at, pair_at, after_space, hex_at};

/// The value of a hexadecimal digit, in either case.
#[tactic(auto, unfolding(crate::specs::Reading::hex_digit_at))]
fn hex_digit(digit: u8) -> Option<u8>
    ensures exact { result ≡ hex_digit_at digit }
    ensures bounded { IfSome result (λ n. n < 16) }
{
    match digit {
        b'0'..=b'9' => Some(digit - b'0'),
        b'A'..=b'F' => Some(digit - b'A' + 10),
        b'a'..=b'f' => Some(digit - b'a' + 10),
        _ => None,
    }
}

/// The byte that these two hexadecimal digits stand for.
#[tactic(auto, unfolding(crate::specs::Reading::pair_at))]
fn pair(high: u8, low: u8) -> Option<u8>
    ensures { result ≡ pair_at high low }
{
    let high = hex_digit(high)?;
    let low = hex_digit(low)?;
    Some(16 * high + low)
}

/// The text without its first character, if that character is a space; else the whole text.
fn skip_space(text: &[u8]) -> &[u8]
    ensures value { result.now ≡ after_space text.now }
    ensures no_longer { length result.now ≤ length text.now }
{
    match text {
        [b' ', rest @ ..] => rest,
        _ => text,
    }
}

/// Reads bytes, written as two hexadecimal digits each, with at most one space between two bytes.
/// Stores the bytes at the front of `buffer`, and returns their number; `None` for any other text.
pub(crate) fn decode(text: &[u8], buffer: &mut [u8]) -> Option<usize>
    requires { length text.now ≤ length buffer.old }
    ensures exact { option_map (λ len. take len buffer.new) result ≡ hex_at text.now }
    ensures bounded { IfSome result (λ len. len ≤ length buffer.old) }
{
    let mut rest = text;
    let mut len = 0;
    while let [high, low, after @ ..] = rest {
        buffer[len] = pair(*high, *low)?;
        len += 1;
        if after.is_empty() {
            return Some(len);
        }
        rest = skip_space(after);
    }
    None
}
