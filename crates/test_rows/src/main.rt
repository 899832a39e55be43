//! Reads test cases, called rows, from the standard input, and runs them. No row depends on an
//! earlier row. Prints the title of each row, and then the results of the row.
//!
//! A title is a line `= WORDS`. The text of a row begins after its title and ends before the next
//! title. The new line right before that title doesn't belong to the text. So an empty line before
//! the next title means that the text ends in a new line; without it the text ends in the middle of
//! a line. If the first line of a text begins with `! `, that line says what the text is and what
//! is printed:
//!
//! - no such line: a script; prints what its replay prints, and the fault of the replay if there is
//!   one;
//! - `! explain`: a script; prints what happened step by step, as `scanvolt explain` does, and the
//!   fault if there is one;
//! - `! explain without TEXT`: as for `! explain`, but without the lines that end in this text;
//! - `! line by line`: a script whose lines come one at each read; prints these lines, with a `>`
//!   and a space before each, and the bytes that the output took, in the order in which they were
//!   given and taken;
//! - `! singly`: a script whose bytes are read and written one by one, and an interrupted read or
//!   write comes before each byte; prints the same as without this line;
//! - `! reads`: a script as for `! singly`, played again and again: first its first read fails,
//!   then its second, and so on; for each run, prints how many times the input was read, what the
//!   output took, and the fault; at last prints the same for a run in which no read fails;
//! - `! input fails`: a script at whose end the input fails; prints what the output took, and the
//!   fault, on a line of its own;
//! - `! output takes N`: a script whose output takes N bytes and then fails; prints how many bytes
//!   it took, and then as for `! input fails`;
//! - `! output stops at N`: as for `! output takes N`, but after N bytes the output takes no more
//!   bytes and reports no fault;
//! - `! ports CORE ABORT`: a script, replayed on a server with these ports; prints the same as
//!   without this line;
//! - `! without TEXT`: a script; prints the lines of its replay that don't end in this text;
//! - `! closed`: a script of three connections; for each connection and each n, prints what the
//!   replay prints if that connection is closed after the first n lines;
//! - `! memory`, `! memory, output takes N`: a script, played again and again: first the first
//!   allocation of its replay is refused, then the second, and so on; prints each outcome that
//!   differs from the outcome before it, `again` once where an outcome comes several times in
//!   succession, and after `all` the outcome without a refusal;
//! - `! growth`: a script on a server, played again and again: first the server's first allocation
//!   is refused, then its second, and so on; the event that finds no memory is tried again; prints
//!   each outcome as for `! memory`, with `no server` if a server had to be made again, `changed`
//!   if a refusal changed the server's answers, and `twice` if the second try found no memory
//!   either;
//! - `! growth, refused`: as for `! growth`, but a call that finds no memory is refused, and then
//!   sent again;
//! - `! events`: events and queries, a line each (`events.rt`); prints the result of each;
//! - `! scenario`: a scenario; prints its entries, or its fault;
//! - `! scenario, memory`: a scenario, read again and again: first the first allocation is refused,
//!   then the second, and so on; prints as for `! memory`;
//! - `! sweeps`, `! peers N`, `! pace`: what the driver of `sv_serve` asks its wire (`driver.rt`);
//! - `! parts`: questions to single parts of the instrument, a line each (`parts.rt`);
//! - `! sockets`: what the peers of a server over real sockets do (`sockets.rt`).
#![tactic(auto)]

mod driver;
mod events;
mod growth;
mod hexadecimal;
mod line_by_line;
mod parts;
mod replays;
mod scenarios;
mod sockets;
mod streams;
mod turns;
mod words;

use driver::{failing, pacing, sweeps};
use sockets::row;
use std::alloc::Global;
use std::io::{self, BufWriter, Error, ErrorKind, Write};
use sv_replay::{Mode, Ports, run_script};
use sv_server::Config;

/// The ports of a server, unless its row names others.
const PORTS: Ports = Ports {
    core: 4096,
    abort: 4097,
};
/// The configuration of a server with these ports.
const CONFIG: Config = Config {
    core: 4096,
    abort: 4097,
    clock: 0,
};

/// Plays the rows in their order.
fn main(rt: HostRuntime) -> io::Result<()> {
    let text = io::read_to_string(rt.alloc(), rt.reader())?;
    let Some(rows) = text.strip_prefix("= ") else {
        return Err(Error::from(ErrorKind::InvalidData));
    };
    let mut writer = BufWriter::new(rt.alloc(), io::writer(&rt))?;
    for row in rows.split("\n= ") {
        show(rt, row, &mut writer)?;
    }
    writer.flush()
}

/// Prints the title of a row and its results.
fn show<W: Write + Drop>(rt: HostRuntime, row: &str, writer: &mut BufWriter<W>) -> io::Result<()> {
    let (title, text) = row.split_once('\n').unwrap_or((row, ""));
    writeln!(writer, "= {title}")?;
    match text.strip_prefix("! ") {
        Some(rest) => match rest.strip_prefix("sockets\n") {
            Some(lines) => row::play(rt, lines, writer),
            None => play(rt.alloc(), rest, writer),
        },
        None => replay(rt.alloc(), text, writer),
    }
}

/// Replays a script. Prints the output of the replay, and its fault if the replay fails.
fn replay<W: Write + Drop>(alloc: Global, text: &str, writer: &mut BufWriter<W>) -> io::Result<()> {
    match run_script(alloc, PORTS, Mode::Plain, &mut text.as_bytes(), writer) {
        Ok(()) => Ok(()),
        Err(fault) => writeln!(writer, "{fault}"),
    }
}

/// Plays a row whose text begins with a line `! KIND`; `row` is the text from KIND on. Prints the
/// results.
fn play<W: Write + Drop>(alloc: Global, row: &str, writer: &mut BufWriter<W>) -> io::Result<()> {
    let (kind, text) = row.split_once('\n').unwrap_or((row, ""));
    match kind {
        "closed" => replays::play_closed(alloc, text, writer),
        "events" => events::play(alloc, text, writer),
        "reads" => replays::play_reads(alloc, text, writer),
        "line by line" => line_by_line::play(alloc, text, writer),
        "parts" => parts::play(alloc, text, writer),
        "growth" => growth::play(alloc, false, text, writer),
        "growth, refused" => growth::play(alloc, true, text, writer),
        "scenario" => scenarios::show(alloc, text, writer),
        "scenario, memory" => scenarios::show_each(alloc, text, writer),
        "sweeps" => sweeps::play(alloc, row, writer),
        "pace" => pacing::play(text, writer),
        _ => play_with(alloc, kind, text, writer),
    }
}

/// Plays a row whose kind has a number or a text in it.
fn play_with<W: Write + Drop>(
    alloc: Global,
    kind: &str,
    text: &str,
    writer: &mut BufWriter<W>,
) -> io::Result<()> {
    if let Some(ending) = kind.strip_prefix("without ") {
        return replays::play_without(alloc, Mode::Plain, ending, text, writer);
    }
    if let Some(ending) = kind.strip_prefix("explain without ") {
        return replays::play_without(alloc, Mode::Explained, ending, text, writer);
    }
    match kind.strip_prefix("peers ") {
        Some(count) => failing::play(alloc, count, text, writer),
        None => replays::play(alloc, kind, text, writer),
    }
}
