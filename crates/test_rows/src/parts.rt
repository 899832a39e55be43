//! Plays rows about single parts of the instrument. Each line of a row is a question to one part of
//! the instrument, or to the whole instrument. Prints the line's answer after `->`. Each row begins
//! with new parts.
//!
//! | Line | Answer |
//! |---|---|
//! | `new` | none; acts after this line are performed on new parts |
//! | `times N LINE` | the answers of the line, which is executed N times |
//! | `white TEXT` | for each byte, whether it is white space |
//! | `trim TEXT` | the text three times: trimmed at both ends, in front only, at the end only |
//! | `cut BYTE TEXT` | the first place of the byte, and the texts before and after it |
//! | `parts TEXT` | the parts of a header |
//! | `unit TEXT` | the header and the parameters of a unit, each with its place and its kind |
//! | `headers TEXT` | the command that each header names; the text has `;` between two headers |
//! | `orders MESSAGE` | what each unit of a message asks for |
//! | `arity HEADER` | how many parameters the header's command takes at most |
//! | `voltage UNIT`, `boolean UNIT`, `keyword UNIT`, `channels UNIT` | a unit's first parameter |
//! | `whole LOW HIGH UNIT` | a unit's first parameter, as a whole number from LOW to HIGH |
//! | `print MICROVOLTS` | the voltage, printed as response data |
//! | `response voltage UNIT` | the unit's first parameter, printed as response data |
//! | `response channels UNIT`, `response source UNIT` | a list or a source, as response data |
//! | `response overload BELOW` | an overload, as response data; `true` means below the range |
//! | `response switch ON` | `1` for `true`, `0` for `false`: the switch, as response data |
//! | `response whole NUMBER`, `response error NUMBER` | a number or an error, as response data |
//! | `code NUMBER` | the name and the text of an error |
//! | `queue ACT`, `register ACT`, `standard ACT`, `status ACT` | that part's answer to the act |
//! | `together queue ACTS`, `together register ACTS` | none; the acts have `, ` between them |
//! | `scan ACT` | the scanner's answer to an act |
//! | `session ACT` | the whole instrument's answer; `+1` if it raised one request for service |
//! | `records ACT` | the answer of a buffer of records |
//! | `read KIND HEX` | the field that is read from these bytes, and how many bytes remain |
//! | `write KIND VALUE` | the bytes of the field |
//! | `call HEX` | the header of a call |
//! | `header ROOM XID PROGRAM VERSION PROCEDURE` | the bytes of the header, if there is room |
//! | `words TEXT` | what the words of a command line tell the program to do |
//! | `fault NAME` | the text and the exit status of a fault of the program |
//! | `memory NAME` | how many allocations a part makes; each of them is refused once |
//! | `heap ACTS` | the answers of an allocator for tests; the acts have `, ` between them |
//!
//! The text of `white`, `trim`, `unit`, `orders`, `session tell` and `session say` may have
//! escapes, such as `\n`, `\x7F` and `\\`.

mod codes;
mod command_line;
mod fields;
mod headers;
mod heap;
mod line;
mod memory;
mod orders;
mod records;
mod responses;
mod scans;
mod sessions;
mod status;
mod texts;
mod units;
mod values;

use crate::words::{cut, value_of};
use codes::put_code;
use command_line::{put_fault, put_words};
use fields::{put_call, put_header, put_read, put_written};
use headers::{put_arity, put_commands};
use heap::put_heap;
use memory::put_allocations;
use orders::put_orders;
use records::put_records;
use responses::put_response;
use scans::put_scan;
use sessions::put_session;
use status::{act_together, put_queue, put_register, put_standard, put_status};
use std::alloc::{AllocError, Global};
use std::io::{self, BufWriter, Write};
use sv_errors::ErrorQueue;
use sv_header::Table;
use sv_instrument::Instrument;
use sv_rpc::RecordBuf;
use sv_scan::Scanner;
use sv_status::{Register, StandardEvent, StatusByte};
use texts::{put_cut, put_parts, put_trimmed, put_white};
use units::put_unit;
use values::put_value;

/// Plays a row: prints the answer of each line, after `->`.
pub(crate) fn play<W: Write + Drop>(
    alloc: Global,
    text: &str,
    writer: &mut BufWriter<W>,
) -> io::Result<()> {
    Parts::new(alloc)?.play(alloc, text, writer)
}

/// The parts of the instrument on which the lines perform acts, and the table of commands.
#[derive(Drop)]
struct Parts {
    commands: Table,
    queue: ErrorQueue,
    register: Register,
    standard: StandardEvent,
    status: StatusByte,
    scanner: Scanner,
    records: RecordBuf,
    instrument: Instrument,
}

impl Parts {
    /// Makes new parts, on which no act has been performed.
    fn new(alloc: Global) -> Result<Parts, AllocError> {
        Ok(Parts {
            commands: Table::new(alloc)?,
            queue: ErrorQueue::new(alloc)?,
            register: Register::new(),
            standard: StandardEvent::new(),
            status: StatusByte::new(),
            scanner: Scanner::new(alloc)?,
            records: RecordBuf::new(alloc)?,
            instrument: Instrument::new(alloc)?,
        })
    }

    /// Prints the answer of each line.
    fn play<W: Write + Drop>(
        &mut self,
        alloc: Global,
        text: &str,
        writer: &mut BufWriter<W>,
    ) -> io::Result<()> {
        let mut answer = String::new(alloc);
        for line in text.lines() {
            answer.clear();
            self.put_answer(alloc, &mut answer, line)?;
            writeln!(writer, "->{answer}")?;
        }
        Ok(())
    }

    /// Makes all parts anew.
    fn renew(&mut self, alloc: Global) -> io::Result<()> {
        *self = Parts::new(alloc)?;
        Ok(())
    }

    /// Appends a space and the answer of a line.
    fn put_answer(&mut self, alloc: Global, out: &mut String, line: &str) -> io::Result<()> {
        let (word, text) = cut(line);
        if word != "times" {
            return self.put_one(alloc, out, line);
        }
        let (times, line) = cut(text);
        for _ in 0..value_of::<u16>(times)? {
            self.put_one(alloc, out, line)?;
        }
        Ok(())
    }

    /// Executes a line once, and appends its answer.
    fn put_one(&mut self, alloc: Global, out: &mut String, line: &str) -> io::Result<()> {
        let (word, text) = cut(line);
        match word {
            "new" => self.renew(alloc),
            "headers" => put_commands(out, &self.commands, text),
            "arity" => put_arity(out, &self.commands, text),
            "orders" => put_orders(alloc, out, &self.commands, text),
            "queue" => put_queue(out, &mut self.queue, text),
            "register" => put_register(out, &mut self.register, text),
            "standard" => put_standard(out, &mut self.standard, text),
            "status" => put_status(out, &mut self.status, text),
            "scan" => put_scan(out, &mut self.scanner, text),
            "together" => act_together(alloc, &mut self.queue, &mut self.register, text),
            "records" => put_records(alloc, out, &mut self.records, text),
            "session" => put_session(alloc, out, &mut self.instrument, text),
            _ => put_of_text(alloc, out, word, text),
        }
    }
}

/// Appends the answer of a line of a kind for which earlier lines don't matter.
fn put_of_text(alloc: Global, out: &mut String, word: &str, text: &str) -> io::Result<()> {
    match word {
        "white" => put_white(alloc, out, text),
        "trim" => put_trimmed(alloc, out, text),
        "cut" => put_cut(out, text),
        "parts" => put_parts(out, text),
        "unit" => put_unit(alloc, out, text),
        "code" => put_code(out, text),
        "response" => put_response(alloc, out, text),
        "read" => put_read(alloc, out, text),
        "write" => put_written(alloc, out, text),
        "call" => put_call(alloc, out, text),
        "header" => put_header(alloc, out, text),
        "words" => put_words(alloc, out, text),
        "fault" => put_fault(out, text),
        "memory" => put_allocations(alloc, out, text),
        "heap" => put_heap(alloc, out, text),
        _ => put_value(out, word, text),
    }
}
