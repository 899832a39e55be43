//! Replays a script whose input gives one line at each read. The replies to a line have to be
//! printed before the next line is read.

use crate::PORTS;
use crate::words::bad;
use failing_alloc::FailingAllocator;
use std::alloc::Global;
use std::cell::RefCell;
use std::io::{self, BufWriter, Read, Write};
use sv_replay::{Mode, run_script};

/// Appends bytes to `noted`, the record of what the input gave and the output took.
fn note(noted: &RefCell<Vec<u8>>, bytes: &[u8]) -> io::Result<()> {
    match noted.try_borrow_mut() {
        Ok(mut all) => {
            all.extend_from_slice(bytes)?;
            Ok(())
        }
        Err(_) => Err(bad()),
    }
}

/// A reader that gives one line at each read, and appends the line to `noted`.
#[derive(Drop)]
struct Lines<'a> {
    rest: &'a [u8],
    noted: &'a RefCell<Vec<u8>>,
}

impl Read for Lines<'_> {
    fn read(&mut self, buf: &mut [u8]) -> io::Result<usize> {
        let len = match self.rest.iter().position(|byte| *byte == b'\n') {
            Some(end) => end + 1,
            None => self.rest.len(),
        };
        let count = len.min(buf.len());
        buf[..count].copy_from_slice(&self.rest[..count]);
        if count > 0 {
            note(self.noted, b"> ")?;
        }
        note(self.noted, &self.rest[..count])?;
        self.rest = &self.rest[count..];
        Ok(count)
    }
}

/// A writer that takes all bytes, and appends them to `noted`.
#[derive(Drop)]
struct Answers<'a> {
    noted: &'a RefCell<Vec<u8>>,
}

impl Write for Answers<'_> {
    fn write(&mut self, buf: &[u8]) -> io::Result<usize> {
        note(self.noted, buf)?;
        Ok(buf.len())
    }

    fn flush(&mut self) -> io::Result<()> {
        Ok(())
    }
}

/// Prints the lines that the input gave, each after `> `, and the bytes that the output took, in
/// the order in which they were given and taken.
pub(crate) fn play<W: Write + Drop>(
    alloc: Global,
    script: &str,
    writer: &mut BufWriter<W>,
) -> io::Result<()> {
    let noted = RefCell::new(Vec::new(alloc));
    let heap = FailingAllocator::new(alloc);
    let mut lines = Lines {
        rest: script.as_bytes(),
        noted: &noted,
    };
    let mut answers = BufWriter::new(alloc, Answers { noted: &noted })?;
    if run_script(&heap, PORTS, Mode::Plain, &mut lines, &mut answers).is_err() {
        return Err(bad());
    }
    match noted.try_borrow() {
        Ok(all) => writer.write_all(all.as_slice()),
        Err(_) => Err(bad()),
    }
}
