//! Prints the values of parameters, and prints voltages as response data.

use crate::parts::line::{put, put_text};
use crate::words::{bad, cut, value_of};
use std::io;
use sv_lexer::{Token, unit};
use sv_value::{boolean, channel_list, keyword, microvolts, whole, write_microvolts};

/// The greatest magnitude of a voltage that can be printed, in microvolts.
const MOST: u64 = 1_000_000_000;

/// Prints the value of a unit's first parameter. For `print`, prints a voltage as response data.
pub(crate) fn put_value(out: &mut String, word: &str, text: &str) -> io::Result<()> {
    match word {
        "whole" => put_whole(out, text),
        "print" => put_printed(out, value_of(text)?),
        _ => put_parameter(out, word, &parameter(text)?),
    }
}

/// Prints the value of a parameter.
fn put_parameter(out: &mut String, word: &str, token: &Token<'_>) -> io::Result<()> {
    match word {
        "voltage" => put(out, microvolts(token)),
        "boolean" => put(out, boolean(token)),
        "keyword" => put(out, keyword(token)),
        "channels" => put(out, channel_list(token)),
        _ => Err(bad()),
    }
}

/// The first parameter of a unit. The unit must have a parameter.
pub(crate) fn parameter(text: &str) -> io::Result<Token<'_>> {
    let Ok(unit) = unit(text.as_bytes()) else {
        return Err(bad());
    };
    let Ok(parameters) = unit.parameters() else {
        return Err(bad());
    };
    parameters.get(0).ok_or(bad())
}

/// Prints the first parameter of a unit as a whole number. The text begins with the lowest and the
/// highest number that are allowed.
fn put_whole(out: &mut String, text: &str) -> io::Result<()> {
    let (low, text) = cut(text);
    let (high, text) = cut(text);
    let token = parameter(text)?;
    put(out, whole(&token, value_of(low)?, value_of(high)?))
}

/// Prints a voltage as response data. `value` is in microvolts, and at most 1,000 V in magnitude.
fn put_printed(out: &mut String, value: i64) -> io::Result<()> {
    if value.unsigned_abs() > MOST {
        return Err(bad());
    }
    let mut buffer = [b'x'; 16];
    let size = write_microvolts(value, &mut buffer);
    put_text(out, &buffer[..size])
}
