//! Writes the answer of a line.

use std::alloc::Global;
use std::fmt::Debug;
use std::io;

/// Appends a value to an answer.
pub(crate) fn put<T: Debug + Drop>(out: &mut String, value: T) -> io::Result<()> {
    write!(out, " {value:?}")?;
    Ok(())
}

/// Appends a text between quotes, with escapes for bytes that aren't printable.
pub(crate) fn put_text(out: &mut String, text: &[u8]) -> io::Result<()> {
    write!(out, " \"{}\"", text.escape_ascii())?;
    Ok(())
}

/// Appends bytes as hexadecimal digits.
pub(crate) fn put_bytes(alloc: Global, out: &mut String, bytes: &[u8]) -> io::Result<()> {
    out.push_str(" ")?;
    out.push_str(hex::encode(alloc, bytes)?.as_str())?;
    Ok(())
}
