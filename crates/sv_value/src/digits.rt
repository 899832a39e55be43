//! Runs of digits and their values.

ghost use Rattle.std.specs.Prelude.{◌≡◌, ◌≤◌, true, min, not, length, position};
ghost use Rattle.std.specs.Char.{digit_value, is_ascii_digit};
ghost use Rattle.std.specs.List.{list_all};
ghost use Rattle.std.specs.Str.Parse.{digits_value_after};
ghost use Rattle.sv_value.specs.Decimal.{behind_digits, digits_in, digits_size};

/// The bound at which values are capped. It is beyond the range of every parameter.
pub(crate) const MOST: u64 = 1_000_000_000_000_000_000;

/// Returns the value of a number that begins with digits of the value `front` and continues with
/// `digits`; or [`MOST`] if the value is larger.
pub(crate) fn value_after(base: u8, front: u64, digits: &[u8]) -> u64
    requires base { base ≤ 16 }
    requires some { 1 ≤ base }
    requires front { front ≤ 1000000000000000000 }
    ensures value { result ≡ min (digits_value_after base front digits.now) 1000000000000000000 }
    ensures most { result ≤ 1000000000000000000 }
{
    let mut value = front;
    let mut rest = digits;
    while let [digit, behind @ ..] = rest {
        value = MOST.min(value * u64::from(base) + u64::from(value_of(*digit)));
        rest = behind;
    }
    value
}

/// Returns the value of a byte as a digit: 0 to 9 for `0` to `9`; 10 to 35 for `A` to `Z`, in upper
/// or lower case; 36 for any other byte.
pub(crate) fn value_of(byte: u8) -> u8
    ensures value { result ≡ digit_value byte }
    ensures most { result ≤ 36 }
{
    match byte {
        b'0'..=b'9' => byte - b'0',
        b'A'..=b'Z' => byte - b'A' + 10,
        b'a'..=b'z' => byte - b'a' + 10,
        _ => 36,
    }
}

/// Returns the leading digits of a text, and the text after them.
pub(crate) fn digits(text: &[u8]) -> (&[u8], &[u8])
    ensures digits { result.0.now ≡ digits_in text.now }
    ensures all { list_all is_ascii_digit result.0.now ≡ true }
    ensures behind { result.1.now ≡ behind_digits text.now }
{
    text.split_at(size_of(text))
}

/// How many digits the text begins with.
fn size_of(text: &[u8]) -> usize
    ensures value { result ≡ digits_size text.now }
    ensures within { result ≤ length text.now }
{
    end_of(text).unwrap_or(text.len())
}

/// Returns the index of the first byte that isn't a digit; `None` if all bytes are digits.
fn end_of(text: &[u8]) -> Option<usize>
    ensures { result ≡ position (λ b. not (is_ascii_digit b)) text.now }
{
    text.iter().position(|byte| !byte.is_ascii_digit())
}
