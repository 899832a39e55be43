//! Reads scenarios, and prints their entries.

use crate::turns::each;
use failing_alloc::FailingAllocator;
use std::alloc::Global;
use std::io::{self, BufWriter, Write};
use sv_replay::{Entry, Stimulus, read_scenario};

/// Returns the text of an entry, written as in a scenario.
fn told(alloc: Global, entry: Entry) -> io::Result<String> {
    let tick = entry.tick;
    let line = match entry.stimulus {
        Stimulus::External => format!(in alloc; "{tick} external\n")?,
        Stimulus::Input {
            channel,
            microvolts,
        } => format!(in alloc; "{tick} input {channel} {microvolts}\n")?,
    };
    Ok(line)
}

/// Reads a scenario. Returns its entries, a line each, or the fault, as text.
fn outcome(alloc: Global, heap: &FailingAllocator<Global>, text: &str) -> io::Result<String> {
    let mut outcome = String::new(alloc);
    match read_scenario(heap, text.as_bytes()) {
        Ok(entries) => {
            for entry in entries.as_slice() {
                outcome.push_str(&told(alloc, *entry)?)?;
            }
        }
        Err(fault) => outcome = format!(in alloc; "{fault}\n")?,
    }
    Ok(outcome)
}

/// Prints the entries of a scenario, or its fault.
pub(crate) fn show<W: Write + Drop>(
    alloc: Global,
    text: &str,
    writer: &mut BufWriter<W>,
) -> io::Result<()> {
    let heap = FailingAllocator::new(alloc);
    let outcome = outcome(alloc, &heap, text)?;
    write!(writer, "{outcome}")
}

/// Reads a scenario again and again: first its first allocation is refused, then its second, and so
/// on. Prints the outcomes.
pub(crate) fn show_each<W: Write + Drop>(
    alloc: Global,
    text: &str,
    writer: &mut BufWriter<W>,
) -> io::Result<()> {
    each(alloc, |heap| outcome(alloc, heap, text), writer)
}
