//! Plays rows whose text begins with `! events`: applies events to a server, and prints answers of
//! the server that a replay doesn't print. The text after `! events` has these lines:
//!
//! | Line | What it says |
//! |---|---|
//! | `clock MILLISECONDS` | as first line: the clock at the start; 0 without this line |
//! | a line of a replay, other than `tick N` | this event happens |
//! | `took c0 44` | the peer takes 44 bytes of a port |
//! | `memory N` | the Nth allocation after this line is refused |
//! | `memory ?` | prints whether that Nth allocation was made |
//! | `times N` | the lines up to the next `times` are executed N times |
//! | `ask 0` | prints the server's answers about a connection |
//! | `show c0` | prints the bytes that wait on a port |
//! | `used` | prints the highest number of a connection that was ever opened, plus 1 |
//!
//! For an event that was refused, the number of the refusal is printed. For a Turn that found no
//! call, `idle` is printed. For any other event nothing is printed.

use crate::hexadecimal::show_bytes;
use crate::words::{bad, cut, number};
use failing_alloc::FailingAllocator;
use std::alloc::Global;
use std::io::{self, BufWriter, Write};
use sv_replay::{Line, read_line};
use sv_server::{Config, Did, Event, Port, Server};

/// The most bytes that a line may have.
const LONGEST: usize = 32_800;

/// The server on which a row is played. The row can refuse memory to this server.
type Played<'a> = Server<&'a FailingAllocator<Global>>;

/// Reads the number of a connection.
fn conn_of(text: &str) -> io::Result<u8> {
    Ok(number(text)?.min(255) as u8)
}

/// Reads a port, such as `c0` or `i0`.
fn port_of(text: &str) -> io::Result<Port> {
    if let Some(conn) = text.strip_prefix('c') {
        return Ok(Port::Conn(conn_of(conn)?));
    }
    match text.strip_prefix('i') {
        Some(conn) => Ok(Port::Intr(conn_of(conn)?)),
        None => Err(bad()),
    }
}

/// Applies an event, and prints the result, unless the result is `Done`.
fn apply<W: Write + Drop>(
    server: &mut Played<'_>,
    event: Event<'_>,
    writer: &mut BufWriter<W>,
) -> io::Result<()> {
    match server.apply(event) {
        Ok(Did::Done) => Ok(()),
        Ok(Did::Idle) => writeln!(writer, "idle"),
        Err(refused) => writeln!(writer, "refused {}: {refused}", refused as u8),
    }
}

/// Applies the event that a line of a replay describes.
fn replayed<W: Write + Drop>(
    server: &mut Played<'_>,
    line: &str,
    writer: &mut BufWriter<W>,
) -> io::Result<()> {
    let mut buffer = [0; LONGEST];
    if line.len() > LONGEST {
        return Err(bad());
    }
    match read_line(line.as_bytes(), &mut buffer) {
        Some(Line::Blank) => Ok(()),
        Some(Line::One(event)) => apply(server, event, writer),
        Some(Line::Ticks(_)) => Err(bad()),
        None => Err(bad()),
    }
}

/// Prints the server's answers about a connection: whether a call can be taken; whether the
/// connection is at fault; its room for bytes; how many bytes wait on the connection and on its
/// interrupt channel; and, if a create_intr_chan waits for its peer, the address and port to dial.
fn ask<W: Write + Drop>(
    server: &Played<'_>,
    conn: u8,
    writer: &mut BufWriter<W>,
) -> io::Result<()> {
    let (ready, faulted) = (server.ready(conn), server.faulted(conn));
    let (replies, calls) = (
        server.waiting(Port::Conn(conn)).len(),
        server.waiting(Port::Intr(conn)).len(),
    );
    write!(
        writer,
        "ready {ready}, faulted {faulted}, room {}, c{conn} {replies}, i{conn} {calls}",
        server.room(conn)
    )?;
    match server.dial(conn) {
        Some(dial) => writeln!(writer, ", dial {:x}:{}", dial.addr, dial.port),
        None => writeln!(writer),
    }
}

/// Prints the bytes that wait on a port.
fn show<W: Write + Drop>(
    server: &Played<'_>,
    port: &str,
    writer: &mut BufWriter<W>,
) -> io::Result<()> {
    write!(writer, "{port} ")?;
    show_bytes(server.waiting(port_of(port)?), writer)
}

/// Chooses the allocation that is refused. For `?`, prints whether the chosen allocation was made.
fn ration<W: Write + Drop>(
    heap: &FailingAllocator<Global>,
    text: &str,
    writer: &mut BufWriter<W>,
) -> io::Result<()> {
    match (text, heap.is_armed()) {
        ("?", true) => writeln!(writer, "memory was not asked for"),
        ("?", false) => writeln!(writer, "memory was asked for"),
        (text, _) => {
            heap.refuse(number(text)?);
            Ok(())
        }
    }
}

/// Reads the event that a line `took PORT COUNT` describes.
fn took(text: &str) -> io::Result<Event<'_>> {
    let (port, count) = cut(text);
    let port = port_of(port)?;
    let count = number(count)?.min(u64::from(u32::MAX)) as u32;
    Ok(Event::Took { port, count })
}

/// Executes a line of an `! events` row.
fn step<W: Write + Drop>(
    heap: &FailingAllocator<Global>,
    server: &mut Played<'_>,
    line: &str,
    writer: &mut BufWriter<W>,
) -> io::Result<()> {
    let (word, rest) = cut(line);
    match word {
        "memory" => ration(heap, rest, writer),
        "ask" => ask(server, conn_of(rest)?, writer),
        "show" => show(server, rest, writer),
        "used" => writeln!(writer, "used {}", server.connections_used()),
        "took" => apply(server, took(rest)?, writer),
        _ => replayed(server, line, writer),
    }
}

/// Executes lines of an `! events` row.
fn steps<W: Write + Drop>(
    heap: &FailingAllocator<Global>,
    server: &mut Played<'_>,
    lines: &str,
    writer: &mut BufWriter<W>,
) -> io::Result<()> {
    for line in lines.split('\n') {
        step(heap, server, line, writer)?;
    }
    Ok(())
}

/// Executes the lines of a section again and again. The first line of the section says how many
/// times.
fn repeat<W: Write + Drop>(
    heap: &FailingAllocator<Global>,
    server: &mut Played<'_>,
    section: &str,
    writer: &mut BufWriter<W>,
) -> io::Result<()> {
    let (count, lines) = section.split_once('\n').unwrap_or((section, ""));
    for _ in 0..number(count)? {
        steps(heap, server, lines, writer)?;
    }
    Ok(())
}

/// Executes the lines before the first `times`, and then each section that begins with `times`.
fn sections<W: Write + Drop>(
    heap: &FailingAllocator<Global>,
    server: &mut Played<'_>,
    lines: &str,
    writer: &mut BufWriter<W>,
) -> io::Result<()> {
    let mut front = true;
    for section in lines.split("\ntimes ") {
        if front {
            steps(heap, server, section, writer)?;
        } else {
            repeat(heap, server, section, writer)?;
        }
        front = false;
    }
    Ok(())
}

/// The clock at the start, and the lines after the line that says so.
fn clock_of(text: &str) -> io::Result<(u64, &str)> {
    match text.strip_prefix("clock ") {
        Some(rest) => {
            let (clock, lines) = rest.split_once('\n').unwrap_or((rest, ""));
            Ok((number(clock)?, lines))
        }
        None => Ok((0, text)),
    }
}

/// Plays the lines of a row after `! events`, on a new server.
pub(crate) fn play<W: Write + Drop>(
    alloc: Global,
    text: &str,
    writer: &mut BufWriter<W>,
) -> io::Result<()> {
    let (clock, lines) = clock_of(text)?;
    let config = Config {
        core: 4096,
        abort: 4097,
        clock: clock.min(9_223_372_036_854_775_807),
    };
    let heap = FailingAllocator::new(alloc);
    let mut server = Server::new(&heap, config)?;
    sections(&heap, &mut server, lines, writer)
}
