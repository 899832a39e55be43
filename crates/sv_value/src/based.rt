//! Numbers in base 16, 8 or 2.

ghost use Rattle.std.specs.Prelude.{◌≡◌, ◌≤◌, Some, Err, IfSome, MatchResult};
ghost use Rattle.std.specs.Char.{is_digit};
ghost use Rattle.std.specs.List.{list_all};
ghost use Rattle.sv_value.specs.Based.{base_of as base_by, begins_with_digit, read_based, read_digits};
ghost use Rattle.sv_value.specs.Plain.{StandsFor};

use crate::amount::Amount;
use crate::digits::{value_after, value_of};
use sv_errors::Code;

/// Reads a number in base 16, 8 or 2: `#`, a letter for the base, and digits, such as `#H1F`.
/// Returns the number or its error.
pub(crate) fn based(text: &[u8]) -> Result<Amount, Code>
    ensures { MatchResult result (λ amount. StandsFor amount (read_based text.now))
        (λ code. read_based text.now ≡ Err code) }
{
    let [_, letter, digits @ ..] = text else {
        return Err(Code::SyntaxError);
    };
    match base_of(*letter) {
        Some(base) => in_base(base, digits),
        None => Err(Code::SyntaxError),
    }
}

/// Returns the base that a letter names; `None` if it names no base.
fn base_of(letter: u8) -> Option<u8>
    ensures value { result ≡ base_by letter }
    ensures few { IfSome result (λ base. (2 ≤ base) × (base ≤ 16)) }
{
    match letter {
        b'H' | b'h' => Some(16),
        b'Q' | b'q' => Some(8),
        b'B' | b'b' => Some(2),
        _ => None,
    }
}

/// Returns the value of digits in this base; or the error: [`Code::SyntaxError`] if the first byte
/// isn't a digit of the base, [`Code::InvalidCharacterInNumber`] if a later byte isn't.
fn in_base(base: u8, digits: &[u8]) -> Result<Amount, Code>
    requires low { 2 ≤ base }
    requires high { base ≤ 16 }
    ensures { MatchResult result (λ amount. StandsFor amount (read_digits (Some base) digits.now))
        (λ code. read_digits (Some base) digits.now ≡ Err code) }
{
    if !begins_well(base, digits) {
        return Err(Code::SyntaxError);
    }
    if !are_digits(base, digits) {
        return Err(Code::InvalidCharacterInNumber);
    }
    Ok(Amount {
        negative: false,
        magnitude: value_after(base, 0, digits),
    })
}

/// Whether the text begins with a digit of the base.
fn begins_well(base: u8, digits: &[u8]) -> bool
    ensures { result ≡ begins_with_digit base digits.now }
{
    match digits {
        [first, ..] => value_of(*first) < base,
        [] => false,
    }
}

/// Whether all bytes are digits of a base.
fn are_digits(base: u8, digits: &[u8]) -> bool
    ensures { result ≡ list_all (λ b. is_digit b base) digits.now }
{
    digits.iter().all(|digit| value_of(*digit) < base)
}
