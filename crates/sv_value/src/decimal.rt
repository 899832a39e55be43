//! Decimal numbers, split into their parts.

ghost use Rattle.std.specs.Prelude.{◌≡◌, true};
ghost use Rattle.sv_text.specs.Front.{has_minus};
ghost use Rattle.std.specs.Char.{is_ascii_digit};
ghost use Rattle.std.specs.List.{list_all};
ghost use Rattle.sv_value.specs.Decimal.{behind_exponent, behind_fraction, behind_mark as mark_behind, behind_sign, exponent_in, fraction_in, is_down, begins_well as begins_well_text, is_spelled as is_spelled_number, number_parts as parts_of};
ghost use Rattle.sv_value.specs.Plain.{plain};

use crate::digits::digits;
use sv_text::without_start;

/// A decimal number, split into its parts.
#[derive(Clone, Copy)]
pub(crate) struct Decimal<'a> {
    /// Whether the number begins with a minus.
    pub(crate) negative: bool,
    /// The digits before the point.
    pub(crate) whole: &'a [u8],
    /// The digits after the point.
    pub(crate) fraction: &'a [u8],
    /// Whether the exponent is negative.
    pub(crate) down: bool,
    /// The digits of the exponent; none if there is no exponent.
    pub(crate) exponent: &'a [u8],
    /// The suffix: the text after the digits, the exponent and white space.
    pub(crate) suffix: &'a [u8],
}

impl<'a> Decimal<'a> {
    /// Splits a text into the parts of a decimal number.
    pub(crate) fn of(text: &'a [u8]) -> Decimal<'a>
        ensures parts { plain result ≡ parts_of text.now }
        ensures whole { list_all is_ascii_digit result.whole.now ≡ true }
        ensures fraction { list_all is_ascii_digit result.fraction.now ≡ true }
    {
        let (negative, rest) = signed(text);
        let (whole, rest) = digits(rest);
        let (fraction, rest) = fraction(rest);
        let (down, exponent, rest) = exponent(rest);
        let suffix = without_start(rest);
        Decimal {
            negative,
            whole,
            fraction,
            down,
            exponent,
            suffix,
        }
    }

    /// Whether this is a number: the mantissa has a digit, and the suffix is empty or begins with a
    /// letter.
    pub(crate) fn is_spelled(&self) -> bool
        ensures { result ≡ is_spelled_number (plain self.now) }
    {
        let none = self.whole.is_empty() & self.fraction.is_empty();
        !none & begins_well(self.suffix)
    }
}

/// Whether a suffix is empty or begins with a letter.
fn begins_well(suffix: &[u8]) -> bool
    ensures { result ≡ begins_well_text suffix.now }
{
    match suffix {
        [first, ..] => first.is_ascii_alphabetic(),
        [] => true,
    }
}

/// Returns whether a text begins with a minus, and the text after its sign: the whole text if it
/// has no sign.
fn signed(text: &[u8]) -> (bool, &[u8])
    ensures minus { result.0 ≡ has_minus text.now }
    ensures behind { result.1.now ≡ behind_sign text.now }
{
    match text {
        [b'-', behind @ ..] => (true, behind),
        [b'+', behind @ ..] => (false, behind),
        _ => (false, text),
    }
}

/// Returns the digits after a leading point, and the text after these digits; no digits and the
/// whole text if it doesn't begin with a point.
fn fraction(text: &[u8]) -> (&[u8], &[u8])
    ensures digits { result.0.now ≡ fraction_in text.now }
    ensures all { list_all is_ascii_digit result.0.now ≡ true }
    ensures behind { result.1.now ≡ behind_fraction text.now }
{
    match text {
        [b'.', behind @ ..] => digits(behind),
        _ => (&[], text),
    }
}

/// Reads an exponent at the front of a text: returns whether the exponent is negative, its digits,
/// and the text after the exponent. If there is no exponent, returns `false`, no digits, and the
/// whole text.
fn exponent(text: &[u8]) -> (bool, &[u8], &[u8])
    ensures minus { result.0 ≡ is_down text.now }
    ensures digits { result.1.now ≡ exponent_in text.now }
    ensures behind { result.2.now ≡ behind_exponent text.now }
{
    let (down, unsigned) = signed(behind_mark(text));
    let (exponent, behind) = digits(unsigned);
    if exponent.is_empty() {
        (false, exponent, text)
    } else {
        (down, exponent, behind)
    }
}

/// Skips white space, an `E` and more white space, and returns the text after these; an empty text
/// if there is no `E`.
fn behind_mark(text: &[u8]) -> &[u8]
    ensures { result.now ≡ mark_behind text.now }
{
    match without_start(text) {
        [b'E' | b'e', behind @ ..] => without_start(behind),
        _ => &[],
    }
}
