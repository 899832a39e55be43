//! The values of parameters.

ghost use Rattle.std.specs.Prelude.{◌≡◌, ◌≤◌, true, unsigned_abs, Ok, Err, MatchResult, IfOk};
ghost use Rattle.sv_value.specs.Number.{read_decimal};
ghost use Rattle.sv_value.specs.Plain.{StandsFor};
ghost use Rattle.sv_value.specs.Value.{power_of_none, read_boolean, read_channels, read_source, read_voltage, read_whole, wrong_kind};
ghost use Rattle.sv_lexer.specs.declared.token.Kind.TheVariants.{Number};
ghost use Rattle.sv_errors.specs.Limits.{is_channel_list};
ghost use Rattle.sv_errors.specs.declared.code.Code.TheVariants.{SuffixNotAllowed};

use crate::amount::Amount;
use crate::based::based;
use crate::channels::channels_of;
use crate::choice::{keyword_of, switch_of};
use crate::decimal::Decimal;
use crate::suffix;
use arrayvec::ArrayVec;
use sv_errors::{Code, LONGEST_LIST, Source};
use sv_lexer::{Kind, Token};

/// Reads a voltage of up to 1,000 V in magnitude, and returns it in microvolts. The text is a
/// decimal number with the suffix `V`, `KV`, `MV` (a thousandth of a volt) or `UV`; without a
/// suffix it is in volts. The voltage is rounded to the nearest microvolt, half away from zero.
///
/// # Errors
/// For data that aren't a number: [`Code::SyntaxError`] if they are of no kind that the standard
/// defines, else [`Code::DataTypeError`]. For a number, the first of these that applies:
/// [`Code::InvalidCharacterInNumber`], [`Code::InvalidSuffix`], [`Code::TooManyDigits`],
/// [`Code::ExponentTooLarge`], [`Code::DataOutOfRange`].
pub fn microvolts(token: &Token<'_>) -> Result<i64, Code>
    ensures value { result ≡ read_voltage token.now.kind token.now.text.now }
    ensures range { IfOk result (λ voltage. unsigned_abs voltage ≤ 1000000000) }
{
    match token.kind {
        Kind::Number => voltage(token.text),
        Kind::Base | Kind::Word | Kind::Expression | Kind::Other => Err(wrong(token.kind)),
    }
}

/// Reads a whole number from `low` to `high`: a decimal number, rounded to the nearest whole
/// number, half away from zero; or a number in base 16, 8 or 2.
///
/// # Errors
/// For data that aren't a number: [`Code::SyntaxError`] if they are of no kind that the standard
/// defines, else [`Code::DataTypeError`]. For a decimal number, the first of these that applies:
/// [`Code::InvalidCharacterInNumber`], [`Code::SuffixNotAllowed`], [`Code::TooManyDigits`],
/// [`Code::ExponentTooLarge`], [`Code::DataOutOfRange`]. For a number in base 16, 8 or 2, the first
/// of these that applies: [`Code::SyntaxError`] if the letter of a base or a digit after it is
/// missing, [`Code::InvalidCharacterInNumber`], [`Code::DataOutOfRange`].
pub fn whole(token: &Token<'_>, low: u16, high: u16) -> Result<u16, Code>
    ensures value { result ≡ read_whole low high token.now.kind token.now.text.now }
    ensures range { IfOk result (λ number. (low ≤ number) × (number ≤ high)) }
{
    let amount = match token.kind {
        Kind::Number => unitless(token.text),
        Kind::Base => based(token.text),
        Kind::Word | Kind::Expression | Kind::Other => Err(wrong(token.kind)),
    };
    amount?.in_range(low, high)
}

/// Reads a boolean: `ON` or `OFF` in upper or lower case; or a number of any size, rounded, where 0
/// is off and every other number is on.
///
/// # Errors
/// For a number: the errors of [`whole`], except [`Code::DataOutOfRange`]. For character data:
/// [`Code::InvalidCharacterData`] if a byte isn't a letter, digit or underscore, else
/// [`Code::IllegalParameterValue`] if the word is neither `ON` nor `OFF`. For other data:
/// [`Code::SyntaxError`] if they are of no kind that the standard defines, else
/// [`Code::DataTypeError`].
pub fn boolean(token: &Token<'_>) -> Result<bool, Code>
    ensures { result ≡ read_boolean token.now.kind token.now.text.now }
{
    let amount = match token.kind {
        Kind::Number => unitless(token.text),
        Kind::Base => based(token.text),
        Kind::Word => return switch_of(token.text),
        Kind::Expression | Kind::Other => Err(wrong(token.kind)),
    };
    Ok(amount?.is_some())
}

/// Reads a source of triggers: `IMMediate`, `BUS` or `EXTernal`, in short or long form, in upper or
/// lower case.
///
/// # Errors
/// For character data: [`Code::InvalidCharacterData`] if a byte isn't a letter, digit or
/// underscore, else [`Code::IllegalParameterValue`] if the word names no source. For other data:
/// [`Code::SyntaxError`] if they are of no kind that the standard defines, else
/// [`Code::DataTypeError`].
pub fn keyword(token: &Token<'_>) -> Result<Source, Code>
    ensures { result ≡ read_source token.now.kind token.now.text.now }
{
    match token.kind {
        Kind::Word => keyword_of(token.text),
        Kind::Number | Kind::Base | Kind::Expression | Kind::Other => Err(wrong(token.kind)),
    }
}

/// Reads a channel list, such as `(@1,5:3)`, and returns its channels in order, at most
/// [`LONGEST_LIST`](sv_errors::LONGEST_LIST).
///
/// # Errors
/// [`Code::InvalidExpression`] if the expression doesn't have the form of a channel list. Else the
/// error of the first faulty item from the left: [`Code::DataOutOfRange`] if a number in the item
/// isn't a channel, or [`Code::TooMuchData`] if this item makes the list too long. For other data
/// than an expression: [`Code::SyntaxError`] if they are of no kind that the standard defines, else
/// [`Code::DataTypeError`].
pub fn channel_list(token: &Token<'_>) -> Result<ArrayVec<u8, LONGEST_LIST>, Code>
    ensures value { MatchResult result (λ list. read_channels token.now.kind token.now.text.now
        ≡ Ok list.items) (λ code. read_channels token.now.kind token.now.text.now ≡ Err code) }
    ensures range { IfOk result (λ list. is_channel_list list.items ≡ true) }
{
    match token.kind {
        Kind::Expression => channels_of(token.text),
        Kind::Number | Kind::Base | Kind::Word | Kind::Other => Err(wrong(token.kind)),
    }
}

/// Reads a decimal number as a voltage in microvolts.
fn voltage(text: &[u8]) -> Result<i64, Code>
    ensures value { result ≡ read_voltage Number text.now }
    ensures range { IfOk result (λ voltage. unsigned_abs voltage ≤ 1000000000) }
{
    let number = Decimal::of(text);
    Amount::of(&number, suffix::volts(number.suffix), Code::InvalidSuffix)?.in_volts()
}

/// Reads a decimal number without a unit.
fn unitless(text: &[u8]) -> Result<Amount, Code>
    ensures { MatchResult result (λ amount. StandsFor amount
        (read_decimal power_of_none SuffixNotAllowed text.now))
        (λ code. read_decimal power_of_none SuffixNotAllowed text.now ≡ Err code) }
{
    let number = Decimal::of(text);
    Amount::of(&number, suffix::none(number.suffix), Code::SuffixNotAllowed)
}

/// Returns the error for data of a kind that the parameter can't have.
fn wrong(kind: Kind) -> Code
    ensures { result ≡ wrong_kind kind }
{
    match kind {
        Kind::Other => Code::SyntaxError,
        Kind::Number | Kind::Base | Kind::Word | Kind::Expression => Code::DataTypeError,
    }
}
