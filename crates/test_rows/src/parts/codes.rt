//! Finds an error by its number, and prints its name and text.

use crate::parts::line::put;
use crate::words::{bad, value_of};
use std::io;
use sv_errors::Code;

/// All error codes.
const CODES: [Code; 28] = [
    Code::NoError,
    Code::InvalidCharacter,
    Code::SyntaxError,
    Code::DataTypeError,
    Code::ParameterNotAllowed,
    Code::MissingParameter,
    Code::ProgramMnemonicTooLong,
    Code::UndefinedHeader,
    Code::InvalidCharacterInNumber,
    Code::ExponentTooLarge,
    Code::TooManyDigits,
    Code::InvalidSuffix,
    Code::SuffixNotAllowed,
    Code::InvalidCharacterData,
    Code::InvalidExpression,
    Code::TriggerIgnored,
    Code::InitIgnored,
    Code::TriggerDeadlock,
    Code::SettingsConflict,
    Code::DataOutOfRange,
    Code::TooMuchData,
    Code::IllegalParameterValue,
    Code::DataCorruptOrStale,
    Code::QueueOverflow,
    Code::InputBufferOverrun,
    Code::QueryInterrupted,
    Code::QueryUnterminated,
    Code::QueryDeadlocked,
];

/// Prints the name and the text of the error that has this number.
pub(crate) fn put_code(out: &mut String, text: &str) -> io::Result<()> {
    let code = code_of(text)?;
    put(out, code)?;
    put(out, code.text())
}

/// The error that has this number.
pub(crate) fn code_of(text: &str) -> io::Result<Code> {
    let number = value_of(text)?;
    for code in CODES {
        if code.number() == number {
            return Ok(code);
        }
    }
    Err(bad())
}
