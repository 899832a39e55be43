//! Prints the parts of a unit: its header and its parameters.

use crate::parts::line::{put, put_text};
use bstr::ByteVec;
use std::alloc::Global;
use std::io;
use sv_lexer::{Params, Token, unit};

/// Prints the header and the parameters of a unit, up to the first fault.
pub(crate) fn put_unit(alloc: Global, out: &mut String, text: &str) -> io::Result<()> {
    let bytes = Vec::unescape_bytes(alloc, text)?;
    match unit(bytes.as_slice()) {
        Ok(unit) => {
            put_token(out, unit.header())?;
            match unit.parameters() {
                Ok(parameters) => put_parameters(out, &parameters),
                Err(code) => put(out, code),
            }
        }
        Err(code) => put(out, code),
    }
}

/// Prints each parameter of a unit. Also tries the index after the last parameter, for which
/// nothing must be printed.
fn put_parameters(out: &mut String, parameters: &Params<'_>) -> io::Result<()> {
    for index in 0..=parameters.count() {
        if let Some(token) = parameters.get(index) {
            put_token(out, token)?;
        }
    }
    Ok(())
}

/// Prints the place, the kind and the text of a token.
fn put_token(out: &mut String, token: Token<'_>) -> io::Result<()> {
    put(out, token.start)?;
    put(out, token.kind)?;
    put_text(out, token.text)
}
