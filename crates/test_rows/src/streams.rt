//! Readers that give few bytes or fail, and writers that take few bytes or fail.

use crate::PORTS;
use std::io::{Error, ErrorKind, Read, Result, Write};
use sv_replay::{Mode, Ports};

/// How a reader gives bytes, how a writer takes bytes, and what is done with the script.
#[derive(Clone, Copy)]
pub(crate) struct Manner {
    /// Whether bytes are read and written one by one, with an interrupted read or write before each
    /// byte.
    pub(crate) singly: bool,
    /// Whether the reader fails at its end.
    pub(crate) input_fails: bool,
    /// The number of the read that fails; 0 if no read fails.
    pub(crate) fails_at: u64,
    /// How many bytes the writer takes before it is full.
    pub(crate) room: usize,
    /// Whether a full writer reports no fault and takes no bytes. If false, a full writer fails.
    pub(crate) is_silent: bool,
    /// What is printed of the script.
    pub(crate) mode: Mode,
    /// The ports of the server.
    pub(crate) ports: Ports,
}

impl Manner {
    /// The `Manner` with which all bytes are read and written at once, nothing fails, and the
    /// script is replayed.
    pub(crate) fn ample() -> Manner {
        Manner {
            singly: false,
            input_fails: false,
            fails_at: 0,
            room: usize::MAX,
            is_silent: false,
            mode: Mode::Plain,
            ports: PORTS,
        }
    }

    /// The most bytes that one read gives, or one write takes.
    fn most(self) -> usize {
        if self.singly { 1 } else { usize::MAX }
    }
}

/// A reader of a text.
#[derive(Drop)]
pub(crate) struct Source<'a> {
    pub(crate) rest: &'a [u8],
    pub(crate) manner: Manner,
    pub(crate) was_interrupted: bool,
    /// How many times the reader was read.
    pub(crate) reads: u64,
}

impl Read for Source<'_> {
    fn read(&mut self, buf: &mut [u8]) -> Result<usize> {
        self.reads = self.reads.saturating_add(1);
        if self.reads == self.manner.fails_at {
            return Err(Error::from(ErrorKind::BrokenPipe));
        }
        self.was_interrupted = self.manner.singly & !self.was_interrupted;
        if self.was_interrupted {
            return Err(Error::from(ErrorKind::Interrupted));
        }
        if self.rest.is_empty() && self.manner.input_fails {
            return Err(Error::from(ErrorKind::BrokenPipe));
        }
        let count = self.rest.len().min(buf.len()).min(self.manner.most());
        buf[..count].copy_from_slice(&self.rest[..count]);
        self.rest = &self.rest[count..];
        Ok(count)
    }
}

/// A writer that stores the bytes that it takes.
#[derive(Drop)]
pub(crate) struct Sink {
    pub(crate) taken: Vec<u8>,
    pub(crate) manner: Manner,
    pub(crate) was_interrupted: bool,
}

impl Write for Sink {
    fn write(&mut self, buf: &[u8]) -> Result<usize> {
        self.was_interrupted = self.manner.singly & !self.was_interrupted;
        if self.was_interrupted {
            return Err(Error::from(ErrorKind::Interrupted));
        }
        let count = buf.len().min(self.manner.room).min(self.manner.most());
        if count == 0 && !self.manner.is_silent {
            return Err(Error::from(ErrorKind::BrokenPipe));
        }
        self.taken.extend_from_slice(&buf[..count])?;
        self.manner.room -= count;
        Ok(count)
    }

    fn flush(&mut self) -> Result<()> {
        Ok(())
    }
}
