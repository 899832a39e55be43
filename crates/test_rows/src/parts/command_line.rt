//! Reads command lines of the program, and prints the program's faults.

use crate::parts::line::put;
use crate::words::{bad, cut, value_of};
use std::alloc::Global;
use std::io;
use sv_net::{ProgramFault, read_words};
use sv_replay::RunFault;

/// Cuts a text at its spaces into the words of a command line. Prints what these words tell the
/// program to do, or the fault.
pub(crate) fn put_words(alloc: Global, out: &mut String, text: &str) -> io::Result<()> {
    let words: Vec<&str> = text.split(' ').collect(alloc)?;
    put(out, read_words(alloc, &words))
}

/// Prints the text and the exit status of a fault.
pub(crate) fn put_fault(out: &mut String, text: &str) -> io::Result<()> {
    let fault = match cut(text) {
        ("words", "") => ProgramFault::BadWords,
        ("line", number) => ProgramFault::Run(RunFault::BadLine(value_of(number)?)),
        ("input", "") => ProgramFault::Run(RunFault::Input),
        ("output", "") => ProgramFault::Run(RunFault::Output),
        ("memory", "") => ProgramFault::Run(RunFault::Memory),
        ("socket", "") => ProgramFault::Socket,
        _ => return Err(bad()),
    };
    write!(out, " \"{fault}\" {}", fault.status())?;
    Ok(())
}
