//! A wire that gives the answers in the lines of a row.

ghost use Rattle.std.specs.Prelude.{length};
ghost use Rattle.sv_serve.specs.Heard.{IsWithin};

use super::shown::{name, word};
use std::alloc::Global;
use std::cell::Cell;
use std::fmt::Write;
use sv_serve::{Answer, Wire};
use sv_server::{Dial, Port, Role};

/// A wire whose answers in a sweep are given by the row's lines below that sweep.
#[derive(Drop)]
pub(crate) struct Scripted {
    alloc: Global,
    /// The text of a row. Each of its sweeps begins with a line `sweep ..`.
    row: String,
    /// The number of the sweep that is under way, counted from 1.
    pub(crate) sweep: Cell<usize>,
    /// The call that the driver is making, written as in a line `CALL: ANSWER`.
    asked: String,
}

/// Whether a connection comes or a peer answers, according to the answer in the row.
fn comes(answer: Option<&str>) -> Answer<()> {
    match answer {
        Some("yes") => Answer::Got(()),
        Some("fails") => Answer::Failed,
        _ => Answer::Pending,
    }
}

/// How many of `most` bytes the wire takes, according to the answer in the row.
fn takes(answer: Option<&str>, most: usize) -> Answer<usize>
    ensures { IsWithin result most }
{
    match answer {
        None => Answer::Got(most),
        Some("later") => Answer::Pending,
        Some(number) => match number.parse::<usize>() {
            Ok(count) => Answer::Got(count.min(most)),
            Err(_) => Answer::Failed,
        },
    }
}

/// Copies bytes to the front of a buffer, as many as the buffer has room for.
fn put(bytes: &[u8], buffer: &mut [u8]) -> Answer<usize>
    ensures { IsWithin result (length buffer.old) }
{
    let count = bytes.len().min(buffer.len());
    buffer[..count].copy_from_slice(&bytes[..count]);
    Answer::Got(count)
}

impl Scripted {
    /// Makes a wire that gives the answers in a row.
    pub(crate) fn new(alloc: Global, row: String) -> Scripted {
        Scripted {
            alloc,
            row,
            sweep: Cell::new(0),
            asked: String::new(alloc),
        }
    }

    /// The row's answer to this call in the sweep that is under way; `None` if the row has no
    /// answer to it.
    fn says(&self, asked: &str) -> Option<&str> {
        let lines = self.row.split("\nsweep ").nth(self.sweep.get())?;
        for line in lines.lines() {
            if let Some((call, answer)) = line.split_once(": ") {
                if call == asked {
                    return Some(answer);
                }
            }
        }
        None
    }
}

impl Wire for Scripted {
    fn accept(&mut self, role: Role, _: Option<u8>) -> Answer<()> {
        comes(self.says(word(role)))
    }

    fn read(&mut self, conn: u8, buffer: &mut [u8]) -> Answer<usize> {
        self.asked.clear();
        let _ = write!(self.asked, "read {conn}");
        match self.says(&self.asked) {
            None => Answer::Pending,
            Some(text) => match hex::decode(self.alloc, text) {
                Ok(bytes) => put(&bytes, buffer),
                Err(_) => Answer::Failed,
            },
        }
    }

    fn probe(&mut self, conn: u8, _: bool) -> Answer<()> {
        self.asked.clear();
        let _ = write!(self.asked, "probe {conn}");
        comes(self.says(&self.asked))
    }

    fn write(&mut self, port: Port, bytes: &[u8]) -> Answer<usize> {
        let (letter, number) = name(port);
        self.asked.clear();
        let _ = write!(self.asked, "write {letter}{number}");
        takes(self.says(&self.asked), bytes.len())
    }

    fn dial(&mut self, conn: u8, _: Dial) -> Answer<()> {
        self.asked.clear();
        let _ = write!(self.asked, "dial {conn}");
        comes(self.says(&self.asked))
    }

    fn dialed(&mut self, conn: u8) -> Answer<()> {
        self.asked.clear();
        let _ = write!(self.asked, "dialed {conn}");
        comes(self.says(&self.asked))
    }

    fn close(&mut self, _: Port) {}
}
