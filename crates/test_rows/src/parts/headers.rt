//! Prints which commands the headers of a message name, and how many parameters a command takes at
//! most.

use crate::parts::line::put;
use std::io;
use sv_header::{Path, Table};

/// For each header of a message, prints the command that the header names; this can depend on the
/// headers before it.
pub(crate) fn put_commands(out: &mut String, table: &Table, text: &str) -> io::Result<()> {
    let mut path = Path::root();
    for header in text.split(';') {
        match table.resolve(&path, header.as_bytes()) {
            Ok(command) => {
                path.follow(header.as_bytes());
                put(out, command)?;
            }
            Err(code) => put(out, code)?,
        }
    }
    Ok(())
}

/// Finds the command that a header names. Prints the most parameters that this command takes.
pub(crate) fn put_arity(out: &mut String, table: &Table, text: &str) -> io::Result<()> {
    match table.resolve(&Path::root(), text.as_bytes()) {
        Ok(command) => put(out, command.most_parameters()),
        Err(code) => put(out, code),
    }
}
