//! Reads the words, numbers and bytes in the lines of a row.

use std::alloc::Global;
use std::io::{self, Error, ErrorKind};
use std::str::FromStr;

/// The error for a row that can't be played.
pub(crate) fn bad() -> Error {
    Error::from(ErrorKind::InvalidData)
}

/// The first word of a text, and the text after the space that ends this word.
pub(crate) fn cut(text: &str) -> (&str, &str) {
    text.split_once(' ').unwrap_or((text, ""))
}

/// Reads a value from a text.
pub(crate) fn value_of<T: FromStr + Drop>(text: &str) -> io::Result<T>
where
    T::Err: Drop,
{
    text.parse().or(Err(bad()))
}

/// Reads a decimal number.
pub(crate) fn number(text: &str) -> io::Result<u64> {
    value_of(text)
}

/// The bytes that these hexadecimal digits stand for.
pub(crate) fn bytes_of(alloc: Global, digits: &str) -> io::Result<Vec<u8>> {
    hex::decode(alloc, digits).or(Err(bad()))
}
