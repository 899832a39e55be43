//! Trims texts, cuts texts at a separator and headers into their parts, and prints the results.
//! Also prints which bytes are white space.

use crate::parts::line::{put, put_text};
use crate::words::{bad, cut};
use bstr::ByteVec;
use std::alloc::Global;
use std::io;
use sv_text::{first_part, header_parts, is_space, place_of, trim, without_end, without_start};

/// Prints, for each byte of a text, whether the byte is white space.
pub(crate) fn put_white(alloc: Global, out: &mut String, text: &str) -> io::Result<()> {
    for byte in Vec::unescape_bytes(alloc, text)?.as_slice() {
        put(out, is_space(*byte))?;
    }
    Ok(())
}

/// Prints a text three times: without the white space at both ends, without the white space in
/// front, and without the white space at the end.
pub(crate) fn put_trimmed(alloc: Global, out: &mut String, text: &str) -> io::Result<()> {
    let bytes = Vec::unescape_bytes(alloc, text)?;
    put_text(out, trim(bytes.as_slice()))?;
    put_text(out, without_start(bytes.as_slice()))?;
    put_text(out, without_end(bytes.as_slice()))
}

/// Prints the first place of a byte in a text, and the texts before and after it.
pub(crate) fn put_cut(out: &mut String, text: &str) -> io::Result<()> {
    let (separator, text) = cut(text);
    let [separator] = separator.as_bytes() else {
        return Err(bad());
    };
    put(out, place_of(text.as_bytes(), *separator))?;
    let (part, behind) = first_part(text.as_bytes(), *separator);
    put_text(out, part)?;
    match behind {
        Some(behind) => put_text(out, behind),
        None => Ok(()),
    }
}

/// Prints the parts of a header: what it begins with, its mnemonics, and whether it is a query.
pub(crate) fn put_parts(out: &mut String, text: &str) -> io::Result<()> {
    let parts = header_parts(text.as_bytes());
    put(out, parts.lead)?;
    put_text(out, parts.body)?;
    put(out, parts.query)
}
