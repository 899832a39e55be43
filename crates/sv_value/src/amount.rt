//! Numbers whose range isn't checked yet.

ghost use Rattle.std.specs.Prelude.{◌≡◌, ◌≤◌, ◌++◌, ◌==◌, ℤ, not, true, length, position, Result, Ok, Err, MatchResult, IfOk, IfSome, unsigned_abs};
ghost use Rattle.std.specs.Char.{is_ascii_digit};
ghost use Rattle.std.specs.List.{list_all, position_or_len};
ghost use Rattle.sv_errors.specs.declared.code.Code.{Code as ErrorCode};
ghost use Rattle.sv_value.specs.Number.{read_with, significant_digits};
ghost use Rattle.sv_value.specs.Plain.{plain, StandsFor};
ghost use Rattle.sv_value.specs.Value.{is_on, within, within_volts};

use crate::decimal::Decimal;
use crate::digits::value_after;
use crate::number::magnitude;
use sv_errors::{Code, MOST_MICROVOLTS};

/// The most digits that a mantissa may have, not counting leading zeros.
const MOST_DIGITS: usize = 255;

/// The largest magnitude that an exponent may have.
const MOST_EXPONENT: u64 = 32_000;

/// A whole number as it was read. A magnitude above [`crate::digits::MOST`], which is beyond the
/// range of every parameter, is stored as this bound.
#[derive(Clone, Copy)]
pub(crate) struct Amount {
    /// Whether the number begins with a minus.
    pub(crate) negative: bool,
    /// The magnitude of the number, at most [`crate::digits::MOST`].
    pub(crate) magnitude: u64,
}

impl Amount {
    /// Returns a decimal number times 10 to the power `power`, rounded to a whole number; or the
    /// error of the number. `power` is `None` if the suffix isn't allowed: then a number that is
    /// otherwise well-formed has the error `suffix_code`.
    pub(crate) fn of(
        number: &Decimal<'_>,
        power: Option<u64>,
        suffix_code: Code,
    ) -> Result<Amount, Code>
        requires power { IfSome power (λ p. p ≤ 9) }
        requires whole { list_all is_ascii_digit number.now.whole.now ≡ true }
        requires fraction { list_all is_ascii_digit number.now.fraction.now ≡ true }
        ensures { MatchResult result
            (λ amount. StandsFor amount (read_with power suffix_code (plain number.now)))
            (λ code. read_with power suffix_code (plain number.now) ≡ Err code) }
    {
        if !number.is_spelled() {
            return Err(Code::InvalidCharacterInNumber);
        }
        let Some(power) = power else {
            return Err(suffix_code);
        };
        if significant(number.whole, number.fraction) > MOST_DIGITS {
            return Err(Code::TooManyDigits);
        }
        if value_after(10, 0, number.exponent) > MOST_EXPONENT {
            return Err(Code::ExponentTooLarge);
        }
        Ok(Amount {
            negative: number.negative,
            magnitude: magnitude(number, power),
        })
    }

    /// Returns this amount as a voltage in microvolts, if it is at most 1,000 V in magnitude; else
    /// [`Code::DataOutOfRange`].
    pub(crate) fn in_volts(self) -> Result<i64, Code>
        ensures value { (answer : Result ℤ ErrorCode) → StandsFor self answer
            → result ≡ within_volts answer }
        ensures range { IfOk result (λ voltage. unsigned_abs voltage ≤ 1000000000) }
    {
        if self.magnitude > u64::from(MOST_MICROVOLTS) {
            return Err(Code::DataOutOfRange);
        }
        let value = self.magnitude as i64;
        Ok(if self.negative { -value } else { value })
    }

    /// Returns the number, if it is from `low` to `high`; else [`Code::DataOutOfRange`].
    pub(crate) fn in_range(self, low: u16, high: u16) -> Result<u16, Code>
        ensures value { (answer : Result ℤ ErrorCode) → StandsFor self answer
            → result ≡ within low high answer }
        ensures range { IfOk result (λ number. (low ≤ number) × (number ≤ high)) }
    {
        let below = self.negative && self.magnitude > 0 || self.magnitude < u64::from(low);
        if below || self.magnitude > u64::from(high) {
            return Err(Code::DataOutOfRange);
        }
        Ok(self.magnitude as u16)
    }

    /// Whether the number isn't 0.
    pub(crate) fn is_some(self) -> bool
        ensures { (answer : Result ℤ ErrorCode) → StandsFor self answer → is_on answer ≡ Ok result }
    {
        self.magnitude != 0
    }
}

/// How many digits a mantissa has, without the zeros in front.
fn significant(whole: &[u8], fraction: &[u8]) -> usize
    ensures { result ≡ significant_digits (whole.now ++ fraction.now) }
{
    let zeros = zeros_in(whole);
    if zeros < whole.len() {
        whole.len() - zeros + fraction.len()
    } else {
        fraction.len() - zeros_in(fraction)
    }
}

/// How many zeros the digits begin with.
fn zeros_in(digits: &[u8]) -> usize
    ensures value { result ≡ position_or_len (λ b. not (b == 48)) digits.now }
    ensures within { result ≤ length digits.now }
{
    zeros_end(digits).unwrap_or(digits.len())
}

/// Returns the index of the first byte that isn't the digit `0`; `None` if there is no such byte.
fn zeros_end(digits: &[u8]) -> Option<usize>
    ensures { result ≡ position (λ b. not (b == 48)) digits.now }
{
    digits.iter().position(|byte| *byte != b'0')
}
